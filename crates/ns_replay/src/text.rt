//! The text of a run, part by part.
//!
//! Each function adds one part at the end of a text, and its contract says which, by the
//! definition of that part in `specs/Text.antt`.

ghost use Rattle.std.specs.Prelude.{◌≡◌, ◌≤◌, ◌<◌, ◌++◌, ◌||◌, map, flat_map, string_bytes, OnOk, IfOk};
ghost use Rattle.ns_model.specs.Seats.{is_in};
ghost use Rattle.ns_replay.specs.Text.{truth_text, expiry_text, refusal_text, reply_text, is_release, tests_text, line_text, lines_text, finished_calls, left_text, lefts_text, row_text, after_comma, numbers_text, mode_text, answer_text, entry_text, exit_text, section_text, rows_text, seat_text, seats_text, cvs_text, event_words, event_text, events_text, history_text, bit_text, bits_text, word_text, waiter_text, queue_text, variable_text, variables_text, wake_text, wakes_text, lock_text, state_text};

use crate::condition::ScriptCondition;
use arrayvec::ArrayVec;
use ns_model::counter::CounterFault;
use ns_model::cvs::Cvs;
use ns_model::event::{Answer, Entry, Event, Exit, Mode};
use ns_model::seats::Seats;
use ns_queue::waiter::Shown;
use ns_word::word::Word;
use ns_world::call::Call;
use ns_world::reply::Reply;
use ns_world::schedule::Line;
use ns_world::state::State;
use std::alloc::AllocError;

/// How a wait ended.
fn push_answer(out: &mut String, answer: Answer) -> Result<(), AllocError>
    ensures { OnOk result (string_bytes out.new ≡ string_bytes out.old ++ answer_text answer) }
{
    match answer {
        Answer::Met => out.push_str("0"),
        Answer::TimedOut => out.push_str("ETIMEDOUT"),
        Answer::Canceled => out.push_str("ECANCELED"),
    }
}

/// Whether it is so.
fn push_truth(out: &mut String, truth: bool) -> Result<(), AllocError>
    ensures { OnOk result (string_bytes out.new ≡ string_bytes out.old ++ truth_text truth) }
{
    if truth {
        out.push_str("true")
    } else {
        out.push_str("false")
    }
}

/// The moment of an expiry, if there is one.
fn push_expiry(out: &mut String, expiry: Option<u64>) -> Result<(), AllocError>
    ensures { OnOk result (string_bytes out.new ≡ string_bytes out.old ++ expiry_text expiry) }
{
    match expiry {
        Some(moment) => write!(out, "{moment}"),
        None => out.push_str("never"),
    }
}

/// Why the change of a counter was refused.
fn push_refusal(out: &mut String, fault: CounterFault) -> Result<(), AllocError>
    ensures { OnOk result (string_bytes out.new ≡ string_bytes out.old ++ refusal_text fault) }
{
    match fault {
        CounterFault::Under => out.push_str("under"),
        CounterFault::Over => out.push_str("over"),
        CounterFault::AfterWait => out.push_str("afterwait"),
    }
}

/// What a call answered.
pub fn push_reply(out: &mut String, reply: Reply) -> Result<(), AllocError>
    ensures { OnOk result (string_bytes out.new ≡ string_bytes out.old ++ reply_text reply) }
{
    match reply {
        Reply::Succeeded => out.push_str("ok"),
        Reply::Busy => out.push_str("busy"),
        Reply::Noisy => out.push_str("noisy"),
        Reply::Number(number) => write!(out, "{number}"),
        Reply::NotesFull => out.push_str("notesfull"),
        Reply::Is(truth) => push_truth(out, truth),
        Reply::Expiry(expiry) => push_expiry(out, expiry),
        Reply::Answered(answer) => push_answer(out, answer),
        Reply::Misuse => out.push_str("misuse"),
        Reply::Refused(fault) => push_refusal(out, fault),
        Reply::Ran => out.push_str("ran"),
        Reply::Already => out.push_str("already"),
    }
}

/// Whether the line is the end of a release.
fn ends_release(threads: &[Vec<Call<ScriptCondition>>], line: &Line) -> bool
    ensures { result ≡ is_release (map (λ v. v.items) threads.now) line.now }
{
    let Some(calls) = threads.get(line.thread as usize) else {
        return false;
    };
    match calls.get(line.call as usize) {
        Some(Call::Unlock | Call::RUnlock | Call::UnlockQuiet) => true,
        _ => false,
    }
}

/// How many conditions the scan of a release tested, where that is asked for.
fn push_tests(
    out: &mut String,
    asked: bool,
    threads: &[Vec<Call<ScriptCondition>>],
    line: &Line,
) -> Result<(), AllocError>
    ensures { OnOk result (string_bytes out.new ≡ string_bytes out.old ++ tests_text asked (map (λ v. v.items) threads.now) line.now) }
{
    let tests = line.tests;
    if asked && line.reply == Reply::Succeeded && ends_release(threads, line) {
        write!(out, " tests {tests}")?;
    }
    Ok(())
}

/// The line of a finished call.
fn push_line(
    out: &mut String,
    tests: bool,
    threads: &[Vec<Call<ScriptCondition>>],
    line: &Line,
) -> Result<(), AllocError>
    ensures { OnOk result (string_bytes out.new ≡ string_bytes out.old ++ line_text tests (map (λ v. v.items) threads.now) line.now) }
{
    let Line { thread, call, .. } = *line;
    write!(out, "{thread} {call} ")?;
    push_reply(out, line.reply)?;
    push_tests(out, tests, threads, line)?;
    out.push_str("\n")
}

/// The lines of the finished calls.
pub fn push_lines(
    out: &mut String,
    tests: bool,
    threads: &[Vec<Call<ScriptCondition>>],
    lines: &[Line],
) -> Result<(), AllocError>
    ensures { OnOk result (string_bytes out.new ≡ string_bytes out.old ++ lines_text tests (map (λ v. v.items) threads.now) lines.now) }
{
    for line in lines {
        push_line(out, tests, threads, line)?;
    }
    Ok(())
}

/// How many calls of the thread are finished.
fn finished_of(lines: &[Line], thread: u8) -> usize
    ensures { result ≡ finished_calls lines.now thread }
{
    lines.iter().filter(|line| line.thread == thread).count()
}

/// The line of a thread whose call is in progress.
fn push_left(out: &mut String, busy: Seats, lines: &[Line], thread: u8) -> Result<(), AllocError>
    requires { thread < 64 }
    ensures { OnOk result (string_bytes out.new ≡ string_bytes out.old ++ left_text (is_in busy) lines.now thread) }
{
    if busy.contains(thread) {
        let call = finished_of(lines, thread);
        writeln!(out, "{thread} {call} left")?;
    }
    Ok(())
}

/// The lines of the threads whose calls are in progress.
pub fn push_lefts(
    out: &mut String,
    busy: Seats,
    lines: &[Line],
    threads: u8,
) -> Result<(), AllocError>
    requires { threads ≤ 64 }
    ensures { OnOk result (string_bytes out.new ≡ string_bytes out.old ++ lefts_text (is_in busy) lines.now threads) }
{
    for thread in 0..threads {
        push_left(out, busy, lines, thread)?;
    }
    Ok(())
}

/// The line of the cells.
pub fn push_row(out: &mut String, row: &[u64]) -> Result<(), AllocError>
    ensures { OnOk result (string_bytes out.new ≡ string_bytes out.old ++ row_text row.now) }
{
    out.push_str("row")?;
    for cell in row {
        write!(out, " {cell}")?;
    }
    out.push_str("\n")
}

/// Each number after a comma.
fn push_more_numbers(out: &mut String, numbers: &[u64]) -> Result<(), AllocError>
    ensures { OnOk result (string_bytes out.new ≡ string_bytes out.old ++ flat_map after_comma numbers.now) }
{
    for number in numbers {
        write!(out, ",{number}")?;
    }
    Ok(())
}

/// Numbers with commas.
fn push_numbers(out: &mut String, numbers: &[u64]) -> Result<(), AllocError>
    ensures { OnOk result (string_bytes out.new ≡ string_bytes out.old ++ numbers_text numbers.now) }
{
    match numbers {
        [] => Ok(()),
        [first, rest @ ..] => {
            write!(out, "{first}")?;
            push_more_numbers(out, rest)
        }
    }
}

/// The mode of a section.
fn push_mode(out: &mut String, mode: Mode) -> Result<(), AllocError>
    ensures { OnOk result (string_bytes out.new ≡ string_bytes out.old ++ mode_text mode) }
{
    match mode {
        Mode::Write => out.push_str("w"),
        Mode::Read => out.push_str("r"),
    }
}

/// How a section began.
fn push_entry(out: &mut String, entry: Entry<ScriptCondition>) -> Result<(), AllocError>
    ensures { OnOk result (string_bytes out.new ≡ string_bytes out.old ++ entry_text entry) }
{
    match entry {
        Entry::Plain => out.push_str("plain"),
        Entry::Waited(condition, answer) => {
            write!(out, "waited:{condition}:")?;
            push_answer(out, answer)
        }
        Entry::AfterCv(k, answer) => {
            write!(out, "aftercv:{k}:")?;
            push_answer(out, answer)
        }
        Entry::AfterAny(Some(k)) => write!(out, "afterany:{k}"),
        Entry::AfterAny(None) => out.push_str("afterany:-"),
    }
}

/// The seat if it is in the set, after a comma if there was one before it. Answers whether there
/// is one now.
fn push_seat(out: &mut String, seats: Seats, seat: u8, any: bool) -> Result<bool, AllocError>
    requires { seat < 64 }
    ensures any { IfOk result (λ now. now ≡ (any || is_in seats seat)) }
    ensures text { OnOk result (string_bytes out.new ≡ string_bytes out.old ++ seat_text any (is_in seats seat) seat) }
{
    if !seats.contains(seat) {
        return Ok(any);
    }
    if any {
        out.push_str(",")?;
    }
    write!(out, "{seat}")?;
    Ok(true)
}

/// The seats of a set with commas, or a dash for none.
fn push_seats(out: &mut String, seats: Seats) -> Result<(), AllocError>
    ensures { OnOk result (string_bytes out.new ≡ string_bytes out.old ++ seats_text seats) }
{
    let mut any = false;
    for seat in 0..64u8 {
        any = push_seat(out, seats, seat, any)?;
    }
    if any { Ok(()) } else { out.push_str("-") }
}

/// The condition variables of a set with commas, or a dash for none.
fn push_cvs(out: &mut String, cvs: Cvs) -> Result<(), AllocError>
    ensures { OnOk result (string_bytes out.new ≡ string_bytes out.old ++ cvs_text cvs) }
{
    push_seats(out, Seats(u64::from(cvs.0)))
}

/// How a section ended.
fn push_exit(out: &mut String, exit: Exit<ScriptCondition>) -> Result<(), AllocError>
    ensures { OnOk result (string_bytes out.new ≡ string_bytes out.old ++ exit_text exit) }
{
    match exit {
        Exit::Plain => out.push_str("plain"),
        Exit::CondWait(condition) => write!(out, "cond:{condition}"),
        Exit::CvWait(k) => write!(out, "cv:{k}"),
        Exit::AnyWait(cvs) => {
            out.push_str("any:")?;
            push_cvs(out, cvs)
        }
    }
}

/// The words of a section.
fn push_section(
    out: &mut String,
    who: u8,
    mode: Mode,
    entry: Entry<ScriptCondition>,
    exit: Exit<ScriptCondition>,
) -> Result<(), AllocError>
    ensures { OnOk result (string_bytes out.new ≡ string_bytes out.old ++ section_text who mode entry exit) }
{
    write!(out, "section {who} ")?;
    push_mode(out, mode)?;
    out.push_str(" ")?;
    push_entry(out, entry)?;
    out.push_str(" ")?;
    push_exit(out, exit)
}

/// Two rows, each after a space.
fn push_rows(out: &mut String, before: &[u64], after: &[u64]) -> Result<(), AllocError>
    ensures { OnOk result (string_bytes out.new ≡ string_bytes out.old ++ rows_text before.now after.now) }
{
    out.push_str(" ")?;
    push_numbers(out, before)?;
    out.push_str(" ")?;
    push_numbers(out, after)
}

/// The words of an event.
fn push_event_words(out: &mut String, event: &Event<ScriptCondition, 8>) -> Result<(), AllocError>
    ensures { OnOk result (string_bytes out.new ≡ string_bytes out.old ++ event_words event.now) }
{
    match event {
        Event::Section {
            who,
            mode,
            entry,
            before,
            after,
            exit,
        } => {
            push_section(out, *who, *mode, *entry, *exit)?;
            push_rows(out, before, after)
        }
        Event::Signal { who, k, woken } => {
            write!(out, "signal {who} {k} ")?;
            push_seats(out, *woken)
        }
        Event::Broadcast { who, k, woken } => {
            write!(out, "broadcast {who} {k} ")?;
            push_seats(out, *woken)
        }
        Event::Leave { who, k } => write!(out, "leave {who} {k}"),
        Event::LeaveAny { who, cvs } => {
            write!(out, "leaveany {who} ")?;
            push_cvs(out, *cvs)
        }
    }
}

/// The line of an event.
fn push_event(out: &mut String, event: &Event<ScriptCondition, 8>) -> Result<(), AllocError>
    ensures { OnOk result (string_bytes out.new ≡ string_bytes out.old ++ event_text event.now) }
{
    push_event_words(out, event)?;
    out.push_str("\n")
}

/// The lines of the events.
fn push_events(out: &mut String, events: &[Event<ScriptCondition, 8>]) -> Result<(), AllocError>
    ensures { OnOk result (string_bytes out.new ≡ string_bytes out.old ++ events_text events.now) }
{
    for event in events {
        push_event(out, event)?;
    }
    Ok(())
}

/// The lines of the events, where that is asked for.
pub fn push_history(
    out: &mut String,
    asked: bool,
    events: &[Event<ScriptCondition, 8>],
) -> Result<(), AllocError>
    ensures { OnOk result (string_bytes out.new ≡ string_bytes out.old ++ history_text asked events.now) }
{
    if asked {
        push_events(out, events)
    } else {
        Ok(())
    }
}

/// The name of a bit, if it is set.
fn push_bit(out: &mut String, name: &str, set: bool) -> Result<(), AllocError>
    ensures { OnOk result (string_bytes out.new ≡ string_bytes out.old ++ bit_text name.now set) }
{
    if set { out.push_str(name) } else { Ok(()) }
}

/// The bits of the lock word that are set.
fn push_bits(out: &mut String, word: Word) -> Result<(), AllocError>
    ensures { OnOk result (string_bytes out.new ≡ string_bytes out.old ++ bits_text word) }
{
    push_bit(out, " write", word.write)?;
    push_bit(out, " spin", word.spin)?;
    push_bit(out, " wait", word.waiting)?;
    push_bit(out, " desig", word.desig)?;
    push_bit(out, " cond", word.cond)?;
    push_bit(out, " wwait", word.writer_waits)?;
    push_bit(out, " allfalse", word.all_false)?;
    push_bit(out, " long", word.long)
}

/// The line of the lock word.
fn push_word(out: &mut String, word: Word) -> Result<(), AllocError>
    ensures { OnOk result (string_bytes out.new ≡ string_bytes out.old ++ word_text word) }
{
    let readers = word.readers;
    out.push_str("word")?;
    push_bits(out, word)?;
    writeln!(out, " readers={readers}")
}

/// A waiter of a list.
fn push_waiter(out: &mut String, waiter: Shown) -> Result<(), AllocError>
    ensures { OnOk result (string_bytes out.new ≡ string_bytes out.old ++ waiter_text waiter) }
{
    let seat = waiter.seat;
    write!(out, " {seat}:")?;
    push_mode(out, waiter.mode)?;
    push_bit(out, "?", waiter.conditional)
}

/// The waiters of a list.
fn push_waiters(out: &mut String, waiters: &[Shown]) -> Result<(), AllocError>
    ensures { OnOk result (string_bytes out.new ≡ string_bytes out.old ++ flat_map waiter_text waiters.now) }
{
    for waiter in waiters {
        push_waiter(out, *waiter)?;
    }
    Ok(())
}

/// The line of the waiters for the lock.
fn push_queue(out: &mut String, waiters: &[Shown]) -> Result<(), AllocError>
    ensures { OnOk result (string_bytes out.new ≡ string_bytes out.old ++ queue_text waiters.now) }
{
    out.push_str("queue")?;
    push_waiters(out, waiters)?;
    out.push_str("\n")
}

/// The line of the waiters for a condition variable, if there are so many.
fn push_variable(out: &mut String, cvs: u8, k: usize, waiters: &[Shown]) -> Result<(), AllocError>
    ensures { OnOk result (string_bytes out.new ≡ string_bytes out.old ++ variable_text cvs k waiters.now) }
{
    if k < cvs as usize {
        write!(out, "cv {k}")?;
        push_waiters(out, waiters)?;
        out.push_str("\n")
    } else {
        Ok(())
    }
}

/// The lines of the waiters for the condition variables.
fn push_variables(
    out: &mut String,
    cvs: u8,
    lists: &[ArrayVec<Shown, 64>; 4],
) -> Result<(), AllocError>
    ensures { OnOk result (string_bytes out.new ≡ string_bytes out.old ++ variables_text cvs 0 (map (λ list. list.items) lists.now)) }
{
    for (k, list) in lists.iter().enumerate() {
        push_variable(out, cvs, k, list.as_slice())?;
    }
    Ok(())
}

/// The line of a wake that is owed.
fn push_wake(out: &mut String, wake: (u8, u8)) -> Result<(), AllocError>
    ensures { OnOk result (string_bytes out.new ≡ string_bytes out.old ++ wake_text wake) }
{
    let (by, to) = wake;
    writeln!(out, "owed {by}>{to}")
}

/// The lines of the wakes that are owed.
fn push_wakes(out: &mut String, wakes: &[(u8, u8)]) -> Result<(), AllocError>
    ensures { OnOk result (string_bytes out.new ≡ string_bytes out.old ++ wakes_text wakes.now) }
{
    for wake in wakes {
        push_wake(out, *wake)?;
    }
    Ok(())
}

/// The lines of the lock word, of its waiters and those of the condition variables, and of the wakes
/// that are owed.
fn push_lock<const N: usize>(out: &mut String, cvs: u8, state: &State<N>) -> Result<(), AllocError>
    ensures { OnOk result (string_bytes out.new ≡ string_bytes out.old ++ lock_text cvs state.now.word state.now.lock.items (map (λ list. list.items) state.now.cvs) state.now.owed.items) }
{
    push_word(out, state.word)?;
    push_queue(out, state.lock.as_slice())?;
    push_variables(out, cvs, &state.cvs)?;
    push_wakes(out, state.owed.as_slice())
}

/// The lines of the lock, with so many condition variables, where that is asked for.
pub fn push_state<const N: usize>(
    out: &mut String,
    asked: bool,
    cvs: u8,
    state: &State<N>,
) -> Result<(), AllocError>
    ensures { OnOk result (string_bytes out.new ≡ string_bytes out.old ++ state_text asked cvs state.now.word state.now.lock.items (map (λ list. list.items) state.now.cvs) state.now.owed.items) }
{
    if asked {
        push_lock(out, cvs, state)
    } else {
        Ok(())
    }
}
