// What is said doesn't depend on how the output was cut.
use super::super::events::child_bytes;
use super::super::parts::Parts;
use super::super::script::{cut, number_of, push_text};
use super::super::{Mode, are_right};
use super::play::Played;
use super::recorder::CHILD;
use super::{closes, ends, rows_go, texts};
use host_trace::Event;
use std::alloc::Global;
use std::test::Fail;

// How many bytes a line may have, an output, and what is said once it has ended.
const OUTPUTS: &str = r"65536 x\r\n\ny <x><><y>CloseWs 1000
65536 a\r\r\n\r <a\r><>CloseWs 1000
65536 \xc3\xa9\n\xe2\x82\xac\xf0\x9f\x98\x80 <\xc3\xa9><\xe2\x82\xac\xf0\x9f\x98\x80>CloseWs 1000
65536 a\xff\xf0\x9f\n <a\xef\xbf\xbd\xef\xbf\xbd>CloseWs 1000
4 1234\n1234 <1234><1234>CloseWs 1000
4 a\n1234\r\nb\n <a>CloseWs 1011
4 a\n\n12345 <a><>CloseWs 1011
4  CloseWs 1000
";

fn hear_piece(alloc: Global, played: &mut Played, bytes: &[u8]) {
    if bytes.is_empty() {
        return;
    }
    match child_bytes(alloc, CHILD, bytes) {
        Ok(event) => played.step(&event),
        Err(_) => played.out.log.lose(),
    }
}

// The output in single bytes, or cut in two at a place.
fn hear_output(alloc: Global, played: &mut Played, output: &Parts, cut: Option<usize>) {
    match cut {
        Some(at) => {
            hear_piece(alloc, played, output.part(0, at));
            hear_piece(alloc, played, output.part(at, output.len()));
        }
        None => {
            for at in 0..output.len() {
                hear_piece(alloc, played, output.part(at, at.saturating_add(1)));
            }
        }
    }
}

fn says(alloc: Global, limit: u64, output: &Parts, cut: Option<usize>, due: &Parts) -> bool {
    let mut played = Played::new(alloc, limit, None);
    played.step(&Event::Started { k: CHILD });
    hear_output(alloc, &mut played, output, cut);
    played.step(&Event::ChildEof { k: CHILD });
    played.out.said.is(due) && !played.out.is_lost()
}

// Whether the output is said so, whole, in single bytes, and cut in two at every place.
fn says_however_cut(alloc: Global, limit: u64, output: &Parts, due: &Parts) -> bool {
    for at in 0..output.len() {
        if !says(alloc, limit, output, Some(at), due) {
            return false;
        }
    }
    says(alloc, limit, output, Some(0), due) && says(alloc, limit, output, None, due)
}

// Says what is not said as it must be.
fn check_case(alloc: Global, case: &str, said: &mut Parts) {
    let (limit, rest) = cut(case);
    let (output_text, due_text) = cut(rest);
    let mut output = Parts::new(alloc);
    let mut due = Parts::new(alloc);
    push_text(&mut output, "", output_text);
    push_text(&mut due, "", due_text);
    if !says_however_cut(alloc, number_of(limit), &output, &due) || due.is_lost() {
        said.push_line(due_text);
    }
}

fn check_all(alloc: Global, said: &mut Parts) {
    for case in OUTPUTS.lines() {
        check_case(alloc, case, said);
    }
}

#[test]
fn output_is_said_however_it_is_cut(rt: HostRuntime) -> Result<(), Fail> {
    let mut said = Parts::new(rt.alloc());
    check_all(rt.alloc(), &mut said);
    are_right(&rt, &said)
}

#[test]
fn single_bytes_are_said_as_whole_pieces(rt: HostRuntime) -> Result<(), Fail> {
    rows_go(&rt, rt.alloc(), texts::rows(), Mode::Single, 7)?;
    rows_go(&rt, rt.alloc(), ends::rows(), Mode::Single, 12)?;
    rows_go(&rt, rt.alloc(), closes::rows(), Mode::Single, 13)
}
