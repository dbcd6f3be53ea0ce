//! Scripts with their replies. Each row over a new disk makes its store; a row behind it opens the store again.

use crate::{OPENED, Row, SIZE, SMALLEST};

/// A disk for a store of the sizes that are taken where the words tell none.
const LARGE: u64 = 16 << 20;

pub const ROWS: [Row<'static>; 18] = [
    Row {
        words: &[],
        disk: Some(SIZE),
        output: b"? words\n",
        status: 2,
        ..OPENED
    },
    Row {
        disk: Some(SIZE),
        script: b"tables\n",
        output: b"? notstore\n",
        status: 6,
        ..OPENED
    },
    Row {
        words: &["--store", "s", "--create"],
        disk: Some(1_000_000),
        output: b"? toosmall 1000000 8458240\n",
        status: 6,
        ..OPENED
    },
    Row {
        words: &SMALLEST,
        disk: Some(SIZE),
        checks: 2,
        output: b"? badextensions 5\n",
        status: 6,
        ..OPENED
    },
    // The pages behind the table and the catalogue go to r, and then to h.
    Row {
        words: &SMALLEST,
        disk: Some(SIZE),
        script: b"create r using tree (k int, t text(8)) key (k)\n\
            create h using heap (k int)\n\
            tables\n\
            insert r values (2, 'b')\n\
            insert h values (7)\n\
            insert r values (2, 'z')\n\
            # a transaction with a part that is taken back\n\
            begin\n\
            insert r values (1, 'a')\n\
            savepoint s\n\
            insert r values (3, 'c')\n\
            rollback s\n\
            scan r\n\
            commit\n\
            begin\n\
            delete r @8000000000000002\n\
            scan r\n\
            abort\n\
            attach check pos on r k >= 0\n\
            insert r values (-1, 'x')\n\
            attach trigger copy on r after insert when new.k > 3 do insert h values (new.k)\n\
            insert r values (3, 'c')\n\
            insert r values (5, 'e')\n\
            scan h\n\
            scan r",
        output: b"ok\n\
            ok\n\
            h\nr\nok 2\n\
            ok @8000000000000002\n\
            ok @000000030000\n\
            ! duplicate r\n\
            ok\n\
            ok @8000000000000001\n\
            ok\n\
            ok @8000000000000003\n\
            ok\n\
            @8000000000000001 (1, 'a')\n@8000000000000002 (2, 'b')\nok 2\n\
            ok\n\
            ok\n\
            ok\n\
            @8000000000000001 (1, 'a')\nok 1\n\
            ok\n\
            ok\n\
            ! veto r pos\n\
            ok\n\
            ok @8000000000000003\n\
            ok @8000000000000005 +@000000030001\n\
            @000000030000 (7)\n@000000030001 (5)\nok 2\n\
            @8000000000000001 (1, 'a')\n@8000000000000002 (2, 'b')\n@8000000000000003 (3, 'c')\n@8000000000000005 (5, 'e')\nok 4\n",
        begun: 24,
        ..OPENED
    },
    // The boxes are there again, and what is begun and not committed goes.
    Row {
        script: b"scan r\r\n\
            scan h\n\
            insert r values (-2, 'y')\n\
            begin\n\
            insert r values (9, 'i')\n\
            scan h\n",
        output: b"@8000000000000001 (1, 'a')\n@8000000000000002 (2, 'b')\n@8000000000000003 (3, 'c')\n@8000000000000005 (5, 'e')\nok 4\n\
            @000000030000 (7)\n@000000030001 (5)\nok 2\n\
            ! veto r pos\n\
            ok\n\
            ok @8000000000000009 +@000000030002\n\
            @000000030000 (7)\n@000000030001 (5)\n@000000030002 (9)\nok 3\n",
        begun: 6,
        ..OPENED
    },
    Row {
        script: b"scan h\nscan q\nscan\n",
        output: b"@000000030000 (7)\n@000000030001 (5)\nok 2\n! norelation q\n! syntax 5\n",
        begun: 3,
        ..OPENED
    },
    Row {
        words: &SMALLEST,
        script: b"tables\n",
        output: b"? alreadystore\n",
        status: 6,
        ..OPENED
    },
    // Keys of a heap, and refusals before anything changes.
    Row {
        words: &["--store", "s", "--create"],
        disk: Some(LARGE),
        script: b"create t using heap (a int, b text)\n\
            insert t values (3, 'c')\n\
            insert t values (1, 'it''s')\n\
            insert t values (2, '')\n\
            scan t\n\
            insert t value (1)\n\
            scan q\n\
            abort\n\
            insert t values ('a', 'b')\n\
            create t using heap (a int)\n\
            attach hashindex h on t (a)\n\
            create w using temp (a int)\n\
            retire attachment 2\n\
            register attachment 2\n",
        output: b"ok\n\
            ok @000000020000\n\
            ok @000000020001\n\
            ok @000000020002\n\
            @000000020000 (3, 'c')\n@000000020001 (1, 'it''s')\n@000000020002 (2, '')\nok 3\n\
            ! syntax 10\n\
            ! norelation q\n\
            ! state\n\
            ! type\n\
            ! exists t\n\
            ! noextension 2\n\
            ! noextension 3\n\
            ! noextension 2\n\
            ! noextension 2\n",
        begun: 14,
        ..OPENED
    },
    Row {
        words: &SMALLEST,
        disk: Some(SIZE),
        ..OPENED
    },
    // Numbers as keys of a tree, and texts.
    Row {
        words: &SMALLEST,
        disk: Some(SIZE),
        script: b"create n using tree (k int) key (k)\n\
            insert n values (0)\n\
            insert n values (-1)\n\
            insert n values (9223372036854775807)\n\
            insert n values (-9223372036854775808)\n\
            scan n\n\
            insert n values (0)\n\
            scan n limit 1\n\
            get n @8000000000000001\n\
            create z using tree (a text) key (a)\n\
            insert z values ('a')\n\
            insert z values ('a\0')\n",
        output: b"ok\n\
            ok @8000000000000000\n\
            ok @7fffffffffffffff\n\
            ok @ffffffffffffffff\n\
            ok @0000000000000000\n\
            @0000000000000000 (-9223372036854775808)\n@7fffffffffffffff (-1)\n@8000000000000000 (0)\n@ffffffffffffffff (9223372036854775807)\nok 4\n\
            ! duplicate n\n\
            @0000000000000000 (-9223372036854775808)\nok 1\n\
            ! norecord n\n\
            ok\n\
            ok @610000\n\
            ok @6100ff0000\n",
        begun: 12,
        ..OPENED
    },
    // What follows from a change may be vetoed, and then nothing has changed.
    Row {
        words: &SMALLEST,
        disk: Some(SIZE),
        script: b"create a using heap (x int)\n\
            create b using heap (y int)\n\
            attach check small on b y < 10\n\
            attach trigger cp on a after insert when always do insert b values (new.x)\n\
            insert a values (10)\n\
            scan a\n\
            insert a values (9)\n",
        output: b"ok\n\
            ok\n\
            ok\n\
            ok\n\
            ! veto b small\n\
            ok 0\n\
            ok @000000020000 +@000000030000\n",
        begun: 7,
        ..OPENED
    },
    // Without a box for triggers the store isn't opened.
    Row {
        triggers: 0,
        script: b"scan a\n",
        output: b"? missingextension 7\n",
        status: 6,
        ..OPENED
    },
    // What waits for the commit goes with what is rolled back.
    Row {
        words: &SMALLEST,
        disk: Some(SIZE),
        script: b"create a using heap (x int)\n\
            create b using heap (y int)\n\
            attach trigger late on a after insert when always do insert b values (new.x) deferred\n\
            begin\n\
            insert a values (1)\n\
            savepoint s\n\
            insert a values (2)\n\
            rollback s\n\
            drop b\n\
            commit\n\
            scan b\n",
        output: b"ok\n\
            ok\n\
            ok\n\
            ok\n\
            ok @000000020000\n\
            ok\n\
            ok @000000020001\n\
            ok\n\
            ! state\n\
            ok +@000000030000\n\
            @000000030000 (1)\nok 1\n",
        begun: 11,
        ..OPENED
    },
    // Checks that wait: at each commit they hold of all rows, or the transaction ends. At the attach they hold too.
    Row {
        words: &SMALLEST,
        disk: Some(SIZE),
        script: b"create r using tree (k int) key (k)\n\
            attach check pos on r k >= 0 deferred\n\
            begin\n\
            insert r values (-1)\n\
            insert r values (1)\n\
            delete r @7fffffffffffffff\n\
            commit\n\
            begin\n\
            insert r values (-2)\n\
            commit\n\
            scan r\n\
            commit\n\
            insert r values (-3)\n\
            attach check few on r k < 1 deferred\n\
            scan r\n",
        output: b"ok\n\
            ok\n\
            ok\n\
            ok @7fffffffffffffff\n\
            ok @8000000000000001\n\
            ok\n\
            ok\n\
            ok\n\
            ok @7ffffffffffffffe\n\
            ! veto r pos\n\
            @8000000000000001 (1)\nok 1\n\
            ! state\n\
            ! veto r pos\n\
            ! veto r few\n\
            @8000000000000001 (1)\nok 1\n",
        begun: 15,
        ..OPENED
    },
    // Transactions with their points, outside of one and inside.
    Row {
        words: &SMALLEST,
        disk: Some(SIZE),
        script: b"commit\n\
            abort\n\
            savepoint a\n\
            rollback a\n\
            checkpoint\n\
            begin\n\
            begin\n\
            checkpoint\n\
            savepoint a\n\
            savepoint b\n\
            savepoint a\n\
            rollback c\n\
            rollback a\n\
            rollback b\n\
            rollback a\n\
            commit\n\
            begin\n\
            rollback a\n\
            abort\n",
        output: b"! state\n\
            ! state\n\
            ! state\n\
            ! state\n\
            ok\n\
            ok\n\
            ! state\n\
            ! state\n\
            ok\n\
            ok\n\
            ! exists a\n\
            ! noname c\n\
            ok\n\
            ! noname b\n\
            ok\n\
            ok\n\
            ok\n\
            ! noname a\n\
            ok\n",
        begun: 19,
        ..OPENED
    },
    // A relation and its rule come and go, with the rows between them. The page that is given back is the next relation's.
    Row {
        words: &SMALLEST,
        disk: Some(SIZE),
        script: b"create r using tree (k int, t text(8)) key (k)\n\
            attach check pos on r k >= 0\n\
            entries pos on r\n\
            insert r values (2, 'b')\n\
            update r @8000000000000002 values (3, 'c')\n\
            get r @8000000000000003\n\
            scan r after @8000000000000003\n\
            set r t = 'd' where k = 3\n\
            add r k by 1\n\
            scan r\n\
            detach pos on r\n\
            show r\n\
            drop r\n\
            scan r\n\
            create h using heap (k int)\n\
            insert h values (7)\n\
            tables\n",
        output: b"ok\n\
            ok\n\
            ok 0\n\
            ok @8000000000000002\n\
            ok @8000000000000003\n\
            @8000000000000003 (3, 'c')\nok 1\n\
            ok 0\n\
            ok 1\n\
            ok 1\n\
            @8000000000000004 (4, 'd')\nok 1\n\
            ok\n\
            create r using tree (k int, t text(8)) key (k)\nok 1\n\
            ok\n\
            ! norelation r\n\
            ok\n\
            ok @000000020000\n\
            h\nok 1\n",
        begun: 17,
        ..OPENED
    },
    // A sum that is no number of 64 bits; actions that wait for one another without end; and such that follow at once.
    Row {
        words: &["--store", "s", "--create"],
        disk: Some(LARGE),
        script: b"create q using tree (x int) key (x)\n\
            insert q values (9223372036854775807)\n\
            add q x by 1\n\
            create g using heap (x int)\n\
            attach trigger again on g after insert when always do insert g values (new.x) deferred\n\
            insert g values (1)\n\
            scan g\n\
            create d using heap (x int)\n\
            attach trigger on_and_on on d after insert when always do insert d values (new.x)\n\
            insert d values (1)\n\
            scan d\n",
        output: b"ok\n\
            ok @ffffffffffffffff\n\
            ! range q\n\
            ok\n\
            ok\n\
            ! deferlimit\n\
            ok 0\n\
            ok\n\
            ok\n\
            ! depth\n\
            ok 0\n",
        begun: 11,
        ..OPENED
    },
];
