//! The lock word's numbers, from outside, and two calls that no script makes.

use ns_env::next::Next;
use ns_word::act::{Act, Change, Found};
use ns_word::codec::{BadWord, decode, encode};
use ns_word::request::Request;
use ns_word::show_walk::ShowPlace;
use ns_word::walk::{Reply, Walk, WalkNext};
use ns_word::word::{Taking, Word};

/// A waiting list of waiters whose conditions are all false.
const ALL_WAIT_IN_VAIN: Word = Word {
    waiting: true,
    cond: true,
    all_false: true,
    ..Word::FREE
};

/// One that has failed too often stands in the list.
const WAITED_LONG_FOR: Word = Word {
    waiting: true,
    long: true,
    ..Word::FREE
};

/// So many readers.
fn read_by(readers: u8) -> Word {
    Word {
        readers,
        ..Word::FREE
    }
}

/// The number decodes to the word, which encodes to the number again.
fn has_number(word: Word, bits: u64) -> bool {
    match decode(bits) {
        Ok(decoded) => decoded == word && encode(decoded) == bits,
        Err(_) => false,
    }
}

#[test]
fn words_have_their_numbers(rt: HostRuntime) {
    let writer = Word {
        write: true,
        ..Word::FREE
    };
    assert!(rt; has_number(Word::FREE, 0));
    assert!(rt; has_number(writer, 1));
    assert!(rt; has_number(ALL_WAIT_IN_VAIN, 84));
    assert!(rt; has_number(WAITED_LONG_FOR, 132));
    assert!(rt; has_number(read_by(2), 512));
    assert!(rt; has_number(read_by(64), 16384));
}

#[test]
fn each_bit_has_its_value(rt: HostRuntime) {
    let mut word = Word::FREE; // one bit more at a time
    word.spin = true;
    assert!(rt; has_number(word, 2));
    word.waiting = true;
    assert!(rt; has_number(word, 2 + 4));
    word.desig = true;
    assert!(rt; has_number(word, 2 + 4 + 8));
    word.cond = true;
    assert!(rt; has_number(word, 2 + 4 + 8 + 16));
    word.writer_waits = true;
    assert!(rt; has_number(word, 2 + 4 + 8 + 16 + 32));
    word.all_false = true;
    assert!(rt; has_number(word, 2 + 4 + 8 + 16 + 32 + 64));
    word.long = true;
    assert!(rt; has_number(word, 2 + 4 + 8 + 16 + 32 + 64 + 128));
    assert!(rt; has_number(read_by(1), 256));
}

#[test]
fn others_are_refused(rt: HostRuntime) {
    for bits in [257, 16640, 16385, u64::MAX] {
        assert!(rt; decode(bits) == Err(BadWord));
    }
}

/// Whether a question whether a section of two cells is quiet loads each cell, and answers what the last load
/// tells.
fn is_told(quiet: bool) -> bool {
    let question: Walk<bool> = Walk::is_quiet::<2>();
    let Next::On(last) = question.got::<2>(Found::Cell(5)) else {
        return false;
    };
    let told = last.got::<2>(Found::Quiet(quiet));
    matches!(question.asked(), Request::IsQuiet)
        && matches!(question.want(), Act::LoadCell(0))
        && matches!(last.want(), Act::JudgeQuiet(1))
        && matches!(told, Next::Done(Reply::Is(is)) if is == quiet)
}

/// Whether a quiet release of one cell goes on to release, or answers that it may not.
fn is_released() -> bool {
    let release: Walk<bool> = Walk::quiet_release::<1>();
    let noisy = release.got::<1>(Found::Quiet(false));
    let Next::On(releasing) = release.got::<1>(Found::Quiet(true)) else {
        return false;
    };
    matches!(release.want(), Act::JudgeQuiet(0))
        && matches!(noisy, Next::Done(Reply::Noisy))
        && matches!(releasing.want(), Act::LoadWord)
}

#[test]
fn a_section_is_judged(rt: HostRuntime) {
    assert!(rt; is_told(true) && is_told(false));
    assert!(rt; is_released());
}

/// Held by a reader, with a writer that waits and has no condition.
const STOOD_BACK: Word = Word {
    waiting: true,
    writer_waits: true,
    readers: 1,
    ..Word::FREE
};

/// The same while one has the queues.
const STOOD_BACK_TAKEN: Word = Word {
    spin: true,
    ..STOOD_BACK
};

/// Held by a writer, with one that waits for a condition.
const CONDITIONAL: Word = Word {
    write: true,
    waiting: true,
    cond: true,
    ..Word::FREE
};

const CONDITIONAL_TAKEN: Word = Word {
    spin: true,
    ..CONDITIONAL
};

/// Whether a call that shows goes round: it is idle, and about to load the word again.
fn shows_later(next: WalkNext<bool>) -> bool {
    matches!(next, Next::Idle(Walk::InShow(ShowPlace::ShowLoad)))
}

/// Whether the place takes the queues by this word.
fn takes_by(place: Walk<bool>, word: Word) -> bool {
    matches!(place.want(), Act::TakeQueues(Taking::ToChange, last) if last == word)
}

/// Whether the place puts the queues back as they were, by this word.
fn returns_by(place: Walk<bool>, word: Word) -> bool {
    matches!(place.want(), Act::ReturnQueues(Change::Nothing, last) if last == word)
}

/// Where the call goes on with what its step found, if it does.
fn goes_on(place: Walk<bool>, found: Found) -> Option<Walk<bool>> {
    match place.got::<1>(found) {
        Next::On(place) => Some(place),
        _ => None,
    }
}

/// Whether a call that shows takes the queues by the word found last, and goes round while another has them.
fn is_shown() -> Option<bool> {
    let show: Walk<bool> = Walk::show();
    let taking = goes_on(show, Found::Saw(STOOD_BACK))?;
    let again = goes_on(taking, Found::Saw(CONDITIONAL))?;
    Some(
        matches!(show.asked(), Request::Show)
            && matches!(show.want(), Act::LoadWord)
            && shows_later(show.got::<1>(Found::Saw(STOOD_BACK_TAKEN)))
            && takes_by(taking, STOOD_BACK)
            && shows_later(taking.got::<1>(Found::Saw(STOOD_BACK_TAKEN)))
            && takes_by(again, CONDITIONAL),
    )
}

/// Whether it then puts them back as they were, by the word found last.
fn is_put_back() -> Option<bool> {
    let taking = goes_on(Walk::show(), Found::Saw(STOOD_BACK))?;
    let returning = goes_on(taking, Found::Made)?;
    let again = goes_on(returning, Found::Saw(CONDITIONAL_TAKEN))?;
    Some(
        returns_by(returning, STOOD_BACK_TAKEN)
            && returns_by(again, CONDITIONAL_TAKEN)
            && matches!(
                returning.got::<1>(Found::Made),
                Next::Done(Reply::Succeeded)
            ),
    )
}

/// An exchange that failed leads to no load.
#[test]
fn a_show_goes_by_the_word_found(rt: HostRuntime) {
    assert!(rt; is_shown() == Some(true));
    assert!(rt; is_put_back() == Some(true));
}
