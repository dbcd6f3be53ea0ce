use sb_tokens::Ending::{Stuck, Whole};
use sb_tokens::{Ending, Placed, Row, Sign, Token, has_one_row, scan};
use std::alloc::Global;

fn has_columns(row: &Row, columns: &[u32]) -> bool {
    row.tokens.len() == columns.len()
        && row
            .tokens
            .iter()
            .zip(columns)
            .all(|(placed, column)| placed.column == *column)
}

/// Whether the tokens of a short line begin at these columns, and it ends so.
fn is_read(alloc: Global, line: &[u8], columns: &[u32], ending: Ending) -> bool {
    if line.len() > 100 {
        return false;
    }
    match scan(alloc, line) {
        Ok(row) => {
            let is_read = row.ending == ending && has_columns(&row, columns);
            drop(row);
            is_read
        }
        Err(_) => false,
    }
}

/// Lines, the columns of their tokens, and how they end.
const LINES: [(&[u8], &[u32], Ending); 50] = [
    (b"", &[], Whole(1)),
    (b"  ", &[], Whole(3)),
    (b"a  ", &[1], Whole(4)),
    (b"\ta\t1\t", &[2, 4], Whole(6)),
    (b"12abc", &[1, 3], Whole(6)),
    (b"_a9", &[1], Whole(4)),
    (b"new.a", &[1, 4, 5], Whole(6)),
    (b"(1,'x')", &[1, 2, 3, 4, 7], Whole(8)),
    (b"aaaaaaaaaabbbbbbbbbbcccccccccc12", &[1], Whole(33)),
    (b"aaaaaaaaaabbbbbbbbbbcccccccccc123", &[], Stuck(1)),
    (b"00012", &[1], Whole(6)),
    (b"-5", &[1], Whole(3)),
    (b"1-2", &[1, 2], Whole(4)),
    (b"- 5", &[], Stuck(1)),
    (b"+5", &[], Stuck(1)),
    (b"9223372036854775807", &[1], Whole(20)),
    (b"9223372036854775808", &[], Stuck(1)),
    (b"-9223372036854775808", &[1], Whole(21)),
    (b"-9223372036854775809", &[], Stuck(1)),
    (b"99999999999999999999999", &[], Stuck(1)),
    (b"@", &[1], Whole(2)),
    (b"@abc", &[1, 4], Whole(5)),
    (b"@abcd1", &[1, 6], Whole(7)),
    (b"@AG", &[1, 2], Whole(4)),
    (b"<>", &[1], Whole(3)),
    (b"<=", &[1], Whole(3)),
    (b"< =", &[1, 3], Whole(4)),
    (b">=", &[1], Whole(3)),
    (b"> =", &[1, 3], Whole(4)),
    (b"<>=", &[1, 3], Whole(4)),
    (b"=<", &[1, 2], Whole(3)),
    (b"''", &[1], Whole(3)),
    (b"'''", &[1], Stuck(3)),
    (b"''''", &[1], Whole(5)),
    (b"'a''b'", &[1], Whole(7)),
    (b"'a' 'b'", &[1, 5], Whole(8)),
    (b"'a'b", &[1, 4], Whole(5)),
    (b"'a", &[], Stuck(1)),
    (b"'a''b)", &[1], Stuck(4)),
    (b"'a''b''c", &[1], Stuck(7)),
    (b"'\xc3\xa9'x", &[1, 5], Whole(6)),
    (b"'\xff'", &[], Stuck(1)),
    (b"'\xc3'", &[], Stuck(1)),
    (b"'a''\xff'", &[1], Stuck(4)),
    (b"'a''b''\xff''c'", &[1], Stuck(7)),
    (b"a\rb", &[1], Stuck(2)),
    (b"a \t\rb", &[1], Stuck(4)),
    (b"a  ?", &[1], Stuck(4)),
    (b"\xff", &[], Stuck(1)),
    (b"a\x00", &[1], Stuck(2)),
];

#[test]
fn columns_and_endings(rt: HostRuntime) {
    for (number, (line, columns, ending)) in LINES.iter().enumerate() {
        assert!(rt;
            is_read(rt.alloc(), line, columns, *ending),
            "line {number}"
        );
    }
    has_one_row();
}

fn is_word(placed: &Placed, text: &str) -> bool {
    matches!(&placed.token, Token::Word(word) if word.as_str() == text)
}

fn is_text(placed: &Placed, text: &str) -> bool {
    matches!(&placed.token, Token::Text(found) if found.as_str() == text)
}

fn is_key(placed: &Placed, bytes: &[u8]) -> bool {
    matches!(&placed.token, Token::Key(key) if key.as_slice() == bytes)
}

fn is_sign(placed: &Placed, sign: Sign) -> bool {
    matches!(&placed.token, Token::Sign(found) if *found == sign)
}

#[test]
fn one_row_by_value(rt: HostRuntime) {
    let row = scan(rt.alloc(), b"r.\tk<= -007,'it''s \xc3\xa9''',@0aFf").expect(&rt, "memory");
    let [word, dot, name, sign, number, _, text, _, key] = row.tokens.as_slice() else {
        panic!(rt; "other tokens");
    };
    assert!(rt; is_word(word, "r") && is_sign(dot, Sign::Dot) && is_word(name, "k"));
    assert!(rt; is_sign(sign, Sign::LessOrEqual));
    assert!(rt; matches!(number.token, Token::Int(-7)));
    assert!(rt; is_text(text, "it's é'"));
    assert!(rt; is_key(key, &[10, 255]));
    drop(row);
}
