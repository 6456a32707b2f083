//! Seats driven by walks as values, act by act, each made by `Gate::perform`.
//!
//! One thread drives all seats. A call that waits stands where it waits until another seat has let it go on.

use crate::seats::Above;
use crate::turns::{Turn, Until, play};
use ns_env::limits::{Cause, Limits};
use ns_model::cvs::Variables;
use ns_model::event::{Answer, Mode};
use ns_word::act::Waking;
use ns_word::wait::{Subject, Wait};
use ns_word::walk::{Reply, Walk};
use ns_word::word::Releasing;

/// The seat makes a call that answers this.
fn answers(seat: u8, first: Walk<Above>, reply: Reply) -> Turn<Above> {
    Turn {
        seat,
        begins: Some(first),
        until: Until::Answers(reply),
    }
}

/// The seat makes a call that succeeds.
fn makes(seat: u8, first: Walk<Above>) -> Turn<Above> {
    answers(seat, first, Reply::Succeeded)
}

/// The seat begins a call, and goes on until it has to wait.
fn waits(seat: u8, first: Walk<Above>) -> Turn<Above> {
    Turn {
        seat,
        begins: Some(first),
        until: Until::Waits,
    }
}

/// The seat goes on with its call, which answers this.
fn ends(seat: u8, reply: Reply) -> Turn<Above> {
    Turn {
        seat,
        begins: None,
        until: Until::Answers(reply),
    }
}

/// The seat reads the cell.
fn reads(seat: u8, value: u64) -> Turn<Above> {
    answers(seat, Walk::get(0), Reply::Number(value))
}

/// A wait for this in this mode, which nothing ends, or a deadline.
fn wait_for(mode: Mode, on: Subject<Above>, deadline: Option<u64>) -> Walk<Above> {
    let limits = Limits {
        deadline,
        note: None,
    };
    Walk::wait::<1>(Wait { mode, on, limits })
}

/// A wait for the first variable in a write section.
fn wait_for_the_first(deadline: Option<u64>) -> Walk<Above> {
    let on = Subject::OnVariables(Variables::Only(0));
    wait_for(Mode::Write, on, deadline)
}

/// A release of a write section.
fn release() -> Walk<Above> {
    Walk::release(Releasing::Writer)
}

/// The wait was met.
const MET: Reply = Reply::Answered(Answer::Met);

/// The state is shown; a section is judged, before and behind a store; and a noisy one is not released quietly.
#[test]
fn sections_are_shown_and_judged(rt: HostRuntime) {
    play(
        &rt,
        rt.alloc(),
        None,
        &[
            makes(0, Walk::show()),
            makes(0, Walk::lock(Mode::Write)),
            reads(0, 0),
            answers(0, Walk::is_quiet::<1>(), Reply::Is(true)),
            makes(0, Walk::set(0, 5)),
            answers(0, Walk::is_quiet::<1>(), Reply::Is(false)),
            answers(0, Walk::quiet_release::<1>(), Reply::Noisy),
        ],
    );
}

/// One that locks queues behind a section of another, which releases with a scan and wakes it.
#[test]
fn a_lock_queues_behind_a_section(rt: HostRuntime) {
    play(
        &rt,
        rt.alloc(),
        None,
        &[
            makes(0, Walk::lock(Mode::Write)),
            reads(0, 0),
            waits(1, Walk::lock(Mode::Write)),
            makes(0, release()),
            ends(1, Reply::Succeeded),
            makes(1, release()),
        ],
    );
}

/// Two lock; the one that has loaded the word first finds another, and queues.
#[test]
fn a_lock_that_finds_another_word_queues(rt: HostRuntime) {
    let loads = Turn {
        seat: 1,
        begins: Some(Walk::lock(Mode::Write)),
        until: Until::Begun,
    };
    let queues = Turn {
        seat: 1,
        begins: None,
        until: Until::Waits,
    };
    play(
        &rt,
        rt.alloc(),
        None,
        &[
            loads,
            makes(0, Walk::lock(Mode::Write)),
            reads(0, 0),
            queues,
            makes(0, release()),
            ends(1, Reply::Succeeded),
            makes(1, release()),
        ],
    );
}

/// A signal wakes nobody, and then the one who waits, while the lock is free. The look of a wait with a deadline shows
/// nothing.
#[test]
fn a_signal_wakes_nobody_or_one(rt: HostRuntime) {
    let signal = Walk::signal(Waking::Signaling, 0);
    play(
        &rt,
        rt.alloc(),
        None,
        &[
            makes(1, signal),
            makes(0, Walk::lock(Mode::Write)),
            reads(0, 0),
            waits(0, wait_for_the_first(Some(3))),
            makes(1, signal),
            ends(0, MET),
            reads(0, 0),
            makes(0, release()),
        ],
    );
}

/// A signal takes the first of two who wait, while the lock is free, and a second one the other.
#[test]
fn a_signal_wakes_one_of_several(rt: HostRuntime) {
    let signal = Walk::signal(Waking::Signaling, 0);
    play(
        &rt,
        rt.alloc(),
        None,
        &[
            makes(0, Walk::lock(Mode::Write)),
            reads(0, 0),
            waits(0, wait_for_the_first(None)),
            makes(1, Walk::lock(Mode::Write)),
            reads(1, 0),
            waits(1, wait_for_the_first(None)),
            makes(2, signal),
            ends(0, MET),
            reads(0, 0),
            makes(0, release()),
            makes(2, signal),
            ends(1, MET),
            reads(1, 0),
            makes(1, release()),
        ],
    );
}

/// A broadcast in a section moves the one who waits to the lock list, and the release wakes it.
#[test]
fn a_broadcast_in_a_section_moves_one(rt: HostRuntime) {
    play(
        &rt,
        rt.alloc(),
        None,
        &[
            makes(0, Walk::lock(Mode::Write)),
            reads(0, 0),
            waits(0, wait_for_the_first(None)),
            makes(1, Walk::lock(Mode::Write)),
            reads(1, 0),
            makes(1, Walk::signal(Waking::Broadcasting, 0)),
            makes(1, release()),
            ends(0, MET),
            reads(0, 0),
            makes(0, release()),
        ],
    );
}

/// A broadcast in a section moves both who wait, and one goes behind the other.
#[test]
fn a_broadcast_in_a_section_moves_several(rt: HostRuntime) {
    play(
        &rt,
        rt.alloc(),
        None,
        &[
            makes(0, Walk::lock(Mode::Write)),
            reads(0, 0),
            waits(0, wait_for_the_first(None)),
            makes(1, Walk::lock(Mode::Write)),
            reads(1, 0),
            waits(1, wait_for_the_first(None)),
            makes(2, Walk::lock(Mode::Write)),
            reads(2, 0),
            makes(2, Walk::signal(Waking::Broadcasting, 0)),
            makes(2, release()),
            ends(0, MET),
            reads(0, 0),
            makes(0, release()),
            ends(1, MET),
            reads(1, 0),
            makes(1, release()),
        ],
    );
}

/// One waits in a read section until the other has stored what it waits for.
#[test]
fn a_wait_comes_back_once_its_condition_is_true(rt: HostRuntime) {
    let condition = Subject::OnCondition(Above { least: 5 });
    play(
        &rt,
        rt.alloc(),
        None,
        &[
            makes(0, Walk::lock(Mode::Read)),
            reads(0, 0),
            waits(0, wait_for(Mode::Read, condition, None)),
            makes(1, Walk::lock(Mode::Write)),
            reads(1, 0),
            makes(1, Walk::set(0, 5)),
            makes(1, release()),
            ends(0, MET),
            makes(0, Walk::release(Releasing::Reader)),
        ],
    );
}

/// A wait for a variable comes back once its look shows that its deadline has passed.
#[test]
fn a_wait_that_is_ended_leaves_its_list(rt: HostRuntime) {
    play(
        &rt,
        rt.alloc(),
        Some(Cause::Expired),
        &[
            makes(0, Walk::lock(Mode::Write)),
            reads(0, 0),
            answers(
                0,
                wait_for_the_first(Some(3)),
                Reply::Answered(Answer::TimedOut),
            ),
            makes(0, release()),
        ],
    );
}
