//! Replies to commands on relations.

ghost use Rattle.std.specs.Prelude.{◌≡◌, ◌||◌, [], drop};
ghost use Rattle.sb_plain.specs.Step.{answered};
ghost use Rattle.sb_statements.specs.Statements.{answer_of};
ghost use Rattle.sb_execution.specs.Endings.{IsReplied, reply_by};
ghost use Rattle.sb_session.specs.Ends.{ends_with};

use crate::serving::Served;
use sb_engine::Work;
use sb_fold::Refusal;
use sb_plain::{Picks, Reply};
use sb_session::Session;
use sb_statements::Answer;
use sb_value::RecKey;
use std::alloc::Global;

/// The reply to a command whose work answered so and picked these keys. A key that was picked for the command's own row isn't said again.
pub(crate) fn replied(answer: Answer, picks: Vec<RecKey>) -> Reply
    ensures { result ≡ answered (answer_of answer) picks.items }
{
    match answer {
        Answer::Plain => Reply::Done {
            key: None,
            picks: Picks::from_vec(picks),
        },
        Answer::Keyed(key) => Reply::Done {
            key: Some(key),
            picks: Picks::from_vec(picks),
        },
        Answer::PickedKey(key) => Reply::Done {
            key: Some(key),
            picks: Picks::from_vec(without_first(picks)),
        },
        Answer::Counts(count) => Reply::Count {
            count,
            picks: Picks::from_vec(picks),
        },
    }
}

/// All keys but the first.
fn without_first(mut picks: Vec<RecKey>) -> Vec<RecKey>
    ensures { result.items ≡ drop 1 picks.items }
{
    if !picks.is_empty() {
        picks.remove(0);
    }
    picks
}

/// Takes the keys that work picked.
fn take_picks(work: &mut Work, alloc: Global) -> Vec<RecKey>
    ensures picks { result.items ≡ work.old.picks.items }
    ensures none { work.new.picks.items ≡ [] }
    ensures opened { work.new.opened.items ≡ work.old.opened.items }
    ensures queue { work.new.queue ≡ work.old.queue }
    ensures done { work.new.done ≡ work.old.done }
    ensures gone { work.new.gone.items ≡ work.old.gone.items }
{
    std::mem::replace(&mut work.picks, Vec::new(alloc))
}

/// The reply to a command in an open transaction, of whose work no pick is left then.
pub(crate) fn reply_to(served: Served, work: &mut Work, alloc: Global) -> Reply
    ensures { IsReplied served work.old work.new result }
{
    match served {
        Served::Read(reply) => reply,
        Served::Worked(answer) => {
            let picks = take_picks(work, alloc);
            replied(answer, picks)
        }
    }
}

/// The reply of a result. One that tells a fault or damage ends the session.
pub(crate) fn told<B>(session: &mut Session<B>, outcome: Result<Reply, Refusal>) -> Reply
    ensures reply { result ≡ reply_by outcome }
    ensures down { session.new.down ≡ (session.old.down || ends_with result) }
    ensures boxes { session.new.boxes ≡ session.old.boxes }
    ensures space { session.new.space ≡ session.old.space }
    ensures place { session.new.place ≡ session.old.place }
    ensures opened { session.new.opened ≡ session.old.opened }
    ensures current { session.new.open ≡ session.old.open }
{
    let reply = match outcome {
        Ok(reply) => reply,
        Err(refusal) => Reply::Refused(refusal),
    };
    if is_end(&reply) {
        session.down = true;
    }
    reply
}

/// Whether a reply tells a fault or damage.
fn is_end(reply: &Reply) -> bool
    ensures { result ≡ ends_with reply.now }
{
    matches!(
        reply,
        Reply::Refused(Refusal::Fault) | Reply::Refused(Refusal::Damaged { .. })
    )
}
