use super::print;
use refusals::{Reason, Refusal};
use std::process::Abort;

// What is printed of an answer with the list 22 5 9, into a room of sevens: the text, and then the sevens that were there.
fn prints(rt: &impl Abort, answer: Result<usize, Refusal>, room: &mut [u8], text: &str) {
    room.fill(7);
    let n = print(answer, &[22, 5, 9], room);
    assert!(rt; n <= room.len());
    assert_eq!(rt; &room[..n], text.as_bytes());
    assert!(rt; room[n..].iter().all(|b| *b == 7));
}

// A list of three numbers takes 64 + 21 * 3 bytes at most; the texts are in document 01's form.
#[test]
fn prints_where_there_is_room(rt: HostRuntime) {
    let refused = Err(Refusal {
        reason: Reason::LongTables,
        value: 65536,
    });
    prints(&rt, Ok(1), &mut [0; 127], "findings 1\n22 5 9\n");
    prints(&rt, Ok(0), &mut [0; 127], "findings 0\n");
    prints(&rt, refused, &mut [0; 127], "refused 2 at 65536\n");
    prints(&rt, Ok(1), &mut [0; 126], "");
}
