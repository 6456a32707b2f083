//! The examples at the heads of ns_model and its files, ns_env, ns_counters, ns_queue and ns_word. Those of other
//! crates stand beside their other tests, or in the cookbook.

use crate::model::AtLeast;
use crate::queue;
use ns_counters::word::{decode_counter, encode_counter};
use ns_env::act::{EnvAct, EnvFound};
use ns_env::next::Next;
use ns_env::reply::EnvReply;
use ns_env::walk::{EnvEnd, EnvWalk};
use ns_model::counter::{CounterEvent, CounterFault, CounterState, counter_after, legal_counter};
use ns_model::event::{Entry, Event, Exit, Mode};
use ns_model::history::{legal, row_after};
use ns_model::once::{OnceEvent, legal_once};
use ns_queue::queues::Queues;
use ns_queue::waiter::{Waiter, Which};
use ns_word::act::{Act, Found};
use ns_word::codec::encode;
use ns_word::walk::{Reply, Walk};
use ns_word::word::{Arrival, Word};
use std::test::Fail;

/// Any `Condition<2>`, by the name that it has in the example.
type Plain = queue::AtLeast<'static>;

#[test]
fn a_history(rt: HostRuntime) {
    // two sections in one chain: the second begins at the row that the first one left
    let wrote = Event::Section {
        who: 0,
        mode: Mode::Write,
        entry: Entry::Plain,
        before: [0; 8],
        after: [5, 0, 0, 0, 0, 0, 0, 0],
        exit: Exit::Plain,
    };
    let read = Event::Section {
        who: 1,
        mode: Mode::Read,
        entry: Entry::Plain,
        before: [5, 0, 0, 0, 0, 0, 0, 0],
        after: [5, 0, 0, 0, 0, 0, 0, 0],
        exit: Exit::Plain,
    };
    let happened: [Event<AtLeast, 8>; 2] = [wrote, read];
    assert!(rt; legal(&happened)); // `AtLeast` is any `Condition<8>`
    assert!(rt; row_after(&happened) == [5, 0, 0, 0, 0, 0, 0, 0]);
    assert!(rt; !legal(&[read, wrote])); // a reader can't see what is written later
}

#[test]
fn a_scan(rt: HostRuntime) {
    let mut queues: Queues<Plain, 2> = Queues::new(); // `Plain` is any `Condition<2>`
    for (seat, mode) in [(0, Mode::Read), (1, Mode::Write), (2, Mode::Read)] {
        let waiter = Waiter {
            seat,
            mode,
            cond: None,
            tries: 0,
            via: None,
        };
        if !queues.holds(seat) {
            queues.push_back(Which::Lock, waiter);
        }
    }
    let scan = queues.scan(&[0, 0]); // a reader is first, so every later reader goes with it
    assert!(rt; scan.woken.as_slice() == [0, 2].as_slice());
    assert!(rt; scan.tests == 0 && queues.holds(1) && !queues.holds(2));
}

#[test]
fn a_walk(rt: HostRuntime) -> Result<(), Fail> {
    // a call is a walk: a place that wants an act next, and goes on by what the act found
    let place: Walk<bool> = Walk::try_lock(Mode::Write);
    assert!(rt; matches!(place.want(), Act::LoadWord));
    let Next::On(place) = place.got::<8>(Found::Saw(Word::FREE)) else {
        return Ok(());
    };
    assert!(rt; matches!(place.want(), Act::Acquire(_, _, _))); // the word may be acquired
    let over = place.got::<8>(Found::Made);
    assert!(rt; matches!(over, Next::Done(Reply::Succeeded)));

    // the lock word after that, as a number
    let word = Word::FREE.acquired(Mode::Write, Arrival::AsFresh);
    assert!(rt; encode(word) == 1);
    Ok(())
}

#[test]
fn a_walk_on_notes(rt: HostRuntime) -> Result<(), Fail> {
    // a call is a walk: a place that wants an act next, and goes on by what the act found
    let place = EnvWalk::NextLoad(None, Some(7));
    assert!(rt; matches!(place.want(), EnvAct::LoadNext));
    let Next::On(place) = place.got(EnvFound::NextNumber(3)) else {
        return Ok(());
    };
    assert!(rt; matches!(place.want(), EnvAct::TakeNext)); // a number was still left
    let Next::On(place) = place.got(EnvFound::Taken(4)) else {
        return Ok(());
    };
    let over = place.got(EnvFound::Stored);
    assert!(rt; matches!(over, Next::Done(EnvEnd::Over(EnvReply::Number(4)))));
    Ok(())
}

#[test]
fn a_history_of_a_counter(rt: HostRuntime) {
    // a counter of 1: a wait begins, it falls to 0, and from there on it can't rise
    let waits = CounterEvent::Begun { who: 1 };
    let falls = CounterEvent::Add {
        who: 0,
        delta: -1,
        reply: Ok(0),
    };
    let stays = CounterEvent::Add {
        who: 0,
        delta: 2,
        reply: Err(CounterFault::AfterWait),
    };
    let happened = [waits, falls, stays];
    assert!(rt; legal_counter(1, &happened));
    assert!(rt; counter_after(1, &happened).is_ready());
}

#[test]
fn a_history_of_a_once_cell(rt: HostRuntime) {
    // of two that begin to run one cell's function, the second is one too many
    let begins = OnceEvent::Began { who: 0 };
    let ends = OnceEvent::Ran { who: 0 };
    assert!(rt; legal_once(&[begins, ends]));
    assert!(rt; !legal_once(&[begins, OnceEvent::Began { who: 1 }]));
    assert!(rt; !legal_once(&[begins, OnceEvent::Ran { who: 1 }]));
}

#[test]
fn a_word_of_a_counter(rt: HostRuntime) {
    // a counter of 2, for whose fall to 0 somebody waits: its word, and back
    let counter = CounterState {
        value: 2,
        waited: true,
    };
    assert!(rt; encode_counter(counter) == 4_294_967_298);
    assert!(rt; decode_counter(4_294_967_298).waited);
}
