//! Scripts for boxes of another author beside those of the program, with their replies.

use crate::{Numbered, OPENED, Row, SMALLEST};

pub const ROWS: [Row<'static>; 5] = [
    // The boxes serve once they are registered. A row of f is a byte of its page, under its place, and most vetoes what is above its desc.
    Row {
        words: &SMALLEST,
        script: b"create f using method 1000 (k int)\n\
            register method 1000\n\
            register attachment 1000\n\
            create f using method 1000 (k text(8))\n\
            create f using method 1000 (k int)\n\
            insert f values (7)\n\
            insert f values (3)\n\
            attach code 1000 most on f desc @05\n\
            attach code 1000 most on f desc @0509\n\
            attach code 1000 most on f desc @09\n\
            insert f values (10)\n\
            begin\n\
            insert f values (9)\n\
            abort\n\
            create r using tree (k int) key (k)\n\
            attach trigger copy on r after insert when new.k > 3 do insert f values (new.k)\n\
            insert r values (5)\n\
            insert r values (12)\n\
            scan f\n\
            scan r\n\
            show f\n\
            retire method 1000\n",
        output: b"! noextension 1000\n\
            ok\n\
            ok\n\
            ! type\n\
            ok\n\
            ok @00\n\
            ok @01\n\
            ! veto f most\n\
            ! type\n\
            ok\n\
            ! veto f most\n\
            ok\n\
            ok @02\n\
            ok\n\
            ok\n\
            ok\n\
            ok @8000000000000005 +@02\n\
            ! veto f most\n\
            @00 (7)\n@01 (3)\n@02 (5)\nok 3\n\
            @8000000000000005 (5)\nok 1\n\
            create f using method 1000 (k int)\nattach code 1000 most on f desc @09\nok 2\n\
            ! inuse f -\n",
        begun: 22,
        ..OPENED
    },
    // A store that is opened makes the spare boxes live that its relations name.
    Row {
        script: b"insert f values (10)\nscan f\n",
        output: b"! veto f most\n@00 (7)\n@01 (3)\n@02 (5)\nok 3\n",
        begun: 2,
        ..OPENED
    },
    // At most one row has the number of a new row, and at most one has each number of the desc: it asks eight times which rows have one. The count
    // is kept in a page.
    Row {
        words: &SMALLEST,
        script: b"? no command\n",
        output: b"? alreadystore\n",
        status: 6,
        ..OPENED
    },
    Row {
        script: b"register attachment 1001\n\
            register attachment 1002\n\
            create s using heap (k int)\n\
            insert s values (4)\n\
            insert s values (4)\n\
            attach code 1002 many on s desc @\n\
            attach code 1001 once on s desc @01020305060708\n\
            delete s @000000050001\n\
            attach code 1001 once on s desc @01020305060708\n\
            entries many on s\n\
            insert s values (8)\n\
            insert s values (8)\n\
            entries many on s\n\
            begin\n\
            delete s where k = 8\n\
            insert s values (9)\n\
            insert s values (8)\n\
            insert s values (8)\n\
            entries many on s\n\
            abort\n\
            entries many on s\n\
            register attachment 1003\n\
            attach code 1003 signs on s desc @\n\
            entries signs on s\n",
        output: b"ok\n\
            ok\n\
            ok\n\
            ok @000000050000\n\
            ok @000000050001\n\
            ok\n\
            ! veto s once\n\
            ok\n\
            ok\n\
            sum 1\nok 0\n\
            ok @000000050001\n\
            ! veto s once\n\
            sum 2\nok 0\n\
            ok\n\
            ok 1\n\
            ok @000000050001\n\
            ok @000000050002\n\
            ! veto s once\n\
            sum 3\nok 0\n\
            ok\n\
            sum 2\nok 0\n\
            ok\n\
            ok\n\
            @01 @\n@02 @\nok 2\n",
        begun: 24,
        ..OPENED
    },
    // Entries that no page keeps are there in the next run.
    Row {
        script: b"entries signs on s\n",
        output: b"@01 @\n@02 @\nok 2\n",
        begun: 1,
        ..OPENED
    },
];

/// Where no box has the code.
pub static LACKING: Row<'static> = Row {
    script: b"scan f\n",
    output: b"? missingextension 1000\n",
    status: 6,
    ..OPENED
};

/// A thousand rows; then an attachment that counts the rows that stand, and those behind it.
pub static COUNTING: Numbered = Numbered {
    front: "register attachment 1002\ncreate r using tree (k int) key (k)\n",
    before: "insert r values (",
    after: ")\n",
    count: 1000,
    behind: "attach code 1002 many on r desc @\n\
        entries many on r\n\
        insert r values (-1)\n\
        insert r values (-1)\n\
        entries many on r\n",
};

pub static AGAIN: Row<'static> = Row {
    script: b"entries many on r\n",
    output: b"sum 1001\nok 0\n",
    begun: 1,
    ..OPENED
};
