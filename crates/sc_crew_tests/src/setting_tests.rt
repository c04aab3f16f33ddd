//! Words and settings that are refused, and settings of the journal.

use crate::kinds::catalogue;
use sc_serve_rows::Come::{All, NotYet};
use sc_serve_rows::Letter::{First, Invite, Second};
use sc_serve_rows::{EMPTY, Row, hold, shelf_of, table_text, told_over, words_of};
use std::alloc::Global;
use std::process::Abort;
use std::sync::Wait;
use std::test::Fail;

const FULL_ROWS: [Row; 2] = [
    Row {
        name: "no room for the turn",
        settings: b"journal_steps = 1\n",
        coming: &[All(1, First), All(2, Second)],
        told: b"JournalFull epoch 0 from 0 steps 1\n\
              polls 1\n\
              step 1\n",
        ..EMPTY
    },
    Row {
        name: "no room for the second request",
        settings: b"journal_steps = 3\n",
        coming: &[All(1, First), All(2, Second)],
        told: b"JournalFull epoch 0 from 0 steps 3\n\
              polls 2\n\
              c1 200 of c1 by 0-1;\n\
              step 1\n\
              step 2\n\
              step 3\n\
              list of epoch 0 steps 3 live 0 waiting 0\n",
        ..EMPTY
    },
];

const EPOCH_ROWS: [Row; 3] = [
    Row {
        name: "each idle moment ends an epoch",
        settings: b"epoch_steps = 1\n",
        coming: &[All(1, First), All(2, Second)],
        told: b"Done epoch 2 from 0 steps 0\n\
              polls 3\n\
              c1 200 of c1 by 0-1;\n\
              c2 200 of c2 by 0-1 of epoch 1;\n\
              step 1\n\
              step 2\n\
              step 3\n\
              list of epoch 0 steps 3 live 0 waiting 0\n\
              epoch 0 from 0 of 3\n\
              step 1\n\
              step 2\n\
              step 3\n\
              list of epoch 1 steps 3 live 0 waiting 0\n\
              epoch 1 from 0 of 3\n",
        ..EMPTY
    },
    Row {
        name: "an epoch begins at the moment of the last tick",
        settings: b"epoch_steps = 1\n",
        coming: &[All(1, First), All(2, Second)],
        moments: &[7],
        told: b"Done epoch 2 from 7 steps 0\n\
              polls 3\n\
              c1 200 of c1 by 0-1;\n\
              c2 200 of c2 by 0-1 of epoch 1;\n\
              step 1\n\
              step 2\n\
              step 3\n\
              step 4\n\
              list of epoch 0 steps 4 live 0 waiting 0\n\
              epoch 0 from 0 of 4\n\
              step 1\n\
              step 2\n\
              step 3\n\
              list of epoch 1 steps 3 live 0 waiting 0\n\
              epoch 1 from 7 of 3\n",
        ..EMPTY
    },
    Row {
        name: "an epoch goes on that has too few steps",
        settings: b"epoch_steps = 4\n",
        coming: &[All(1, First), All(2, Second)],
        told: b"Done epoch 1 from 0 steps 0\n\
              polls 3\n\
              c1 200 of c1 by 0-1;\n\
              c2 200 of c2 by 0-2;\n\
              step 1\n\
              step 2\n\
              step 3\n\
              list of epoch 0 steps 3 live 0 waiting 0\n\
              step 4\n\
              step 5\n\
              step 6\n\
              list of epoch 0 steps 6 live 0 waiting 0\n\
              epoch 0 from 0 of 6\n",
        ..EMPTY
    },
];

const PART_ROWS: [Row; 1] = [Row {
    name: "each step is handed on",
    settings: b"journal_steps = 2\njournal_parts = true\n",
    coming: &[All(1, First)],
    told: b"Done epoch 0 from 0 steps 1\n\
              polls 2\n\
              c1 200 of c1 by 0-1;\n\
              step 1\n\
              part of 1\n\
              step 2\n\
              part of 1\n\
              step 3\n\
              list of epoch 0 steps 3 live 0 waiting 0\n",
    ..EMPTY
}];

const RECORD_ROWS: [Row; 2] = [
    Row {
        name: "what is kept is handed on before it is a second old, while a session lives",
        settings: b"record = \"steps\"\n",
        coming: &[All(1, Invite), NotYet, NotYet, NotYet, NotYet],
        moments: &[10, 999, 1_000, 1_500, 2_100],
        told: b"Done epoch 0 from 0 steps 1\n\
              polls 6\n\
              c1 100 of c5; 200 of c5 by 0-1;\n\
              step 1\n\
              step 2\n\
              step 3\n\
              list of epoch 0 steps 3 live 1 waiting 0\n\
              step 4\n\
              list of epoch 0 steps 4 live 1 waiting 0\n\
              part of 4\n\
              step 5\n\
              list of epoch 0 steps 5 live 1 waiting 0\n\
              step 6\n\
              list of epoch 0 steps 6 live 1 waiting 0\n\
              part of 2\n\
              step 7\n\
              list of epoch 0 steps 7 live 1 waiting 0\n",
        ..EMPTY
    },
    Row {
        name: "what isn't recorded is kept",
        coming: &[All(1, Invite), NotYet],
        moments: &[10, 1_500],
        told: b"Done epoch 0 from 0 steps 4\n\
              polls 3\n\
              c1 100 of c5; 200 of c5 by 0-1;\n\
              step 1\n\
              step 2\n\
              step 3\n\
              list of epoch 0 steps 3 live 1 waiting 0\n\
              step 4\n\
              list of epoch 0 steps 4 live 1 waiting 0\n",
        ..EMPTY
    },
];

// A command line over a shelf, and the status without a journal.
#[derive(Clone, Copy)]
struct Refusal {
    words: &'static [&'static str],
    settings: &'static [u8],
    // Another routing table.
    table: Option<&'static [u8]>,
    // The number of the read that fails; 0 for none.
    failing: u64,
    told: &'static [u8],
}

const COMMAND: &[&str] = &["serve", "config", "dar"];

const REFUSALS: [Refusal; 8] = [
    Refusal {
        words: &["serve", "config"],
        settings: b"",
        table: None,
        failing: 0,
        told: b"Usage without a journal\npolls 0\n",
    },
    Refusal {
        words: &["serve", "config", "dar", "more"],
        settings: b"",
        table: None,
        failing: 0,
        told: b"Usage without a journal\npolls 0\n",
    },
    Refusal {
        words: &["check", "config", "dar"],
        settings: b"",
        table: None,
        failing: 0,
        told: b"Usage without a journal\npolls 0\n",
    },
    Refusal {
        words: COMMAND,
        settings: b"journal_steps = 0\n",
        table: None,
        failing: 0,
        told: b"Config without a journal\npolls 0\n",
    },
    Refusal {
        words: COMMAND,
        settings: b"",
        table: Some(b"OPTIONS: (\"b0\", \"DAR:From\", \"NEUTRAL\", \"\", \"NO_ROUTE\", \"0\")\n"),
        failing: 0,
        told: b"Dar without a journal\npolls 0\n",
    },
    Refusal {
        words: COMMAND,
        settings: b"",
        table: None,
        failing: 1,
        told: b"Read without a journal\npolls 0\n",
    },
    Refusal {
        words: COMMAND,
        settings: b"",
        table: None,
        failing: 2,
        told: b"Read without a journal\npolls 0\n",
    },
    Refusal {
        words: &["serve", "other", "dar"],
        settings: b"",
        table: None,
        failing: 0,
        told: b"Read without a journal\npolls 0\n",
    },
];

const WAITING: Row = Row {
    name: "a request waits",
    coming: &[All(1, First)],
    ..EMPTY
};

fn refuse<R: Wait + Abort>(rt: &R, alloc: Global, refusals: &[Refusal]) -> Result<(), Fail> {
    let apps = catalogue(alloc)?;
    for refusal in refusals {
        let words = words_of(alloc, refusal.words)?;
        let table = refusal.table.unwrap_or(table_text());
        let mut shelf = shelf_of(alloc, refusal.settings, table, refusal.failing)?;
        let told = told_over(rt, alloc, words.as_slice(), &mut shelf, &apps, &WAITING)?;
        assert!(rt; told.as_bytes() == refusal.told, "{told}");
    }
    Ok(())
}

#[test]
fn refused(rt: HostRuntime) -> Result<(), Fail> {
    refuse(&rt, rt.alloc(), &REFUSALS)
}

#[test]
fn full_journals(rt: HostRuntime) -> Result<(), Fail> {
    hold(&rt, rt.alloc(), &FULL_ROWS)
}

#[test]
fn epochs(rt: HostRuntime) -> Result<(), Fail> {
    hold(&rt, rt.alloc(), &EPOCH_ROWS)
}

#[test]
fn parts(rt: HostRuntime) -> Result<(), Fail> {
    hold(&rt, rt.alloc(), &PART_ROWS)
}

#[test]
fn records(rt: HostRuntime) -> Result<(), Fail> {
    hold(&rt, rt.alloc(), &RECORD_ROWS)
}
