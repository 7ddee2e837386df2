//! Serving a stream of lines over a desk: whole lines, the longest line, and one that is too long.
use super::desk::serving;
use cg_desk::{Desk, ReplyToken};
use cg_group::{Reply, Request, Ticket};
use cg_line::{Backend, LINE_BYTES_MAX, RunEnd, StdTransport, run};
use cg_names::{Code, Moment};
use std::alloc::Global;
use std::process::Abort;
use uuid::Uuid;

struct Row {
    name: &'static str,
    /// Number of bytes `a` before the text.
    long: usize,
    text: &'static str,
    replies: &'static str,
    end: RunEnd,
}

const ROWS: &[Row] = &[
    Row {
        name: "a malformed line, a request, and a line that does not end",
        long: 0,
        text: "FOO\nLIST\nLIST",
        replies: "ERR 42 INVALID_REQUEST\nGROUPS\n",
        end: RunEnd::End,
    },
    Row {
        name: "the longest line",
        long: LINE_BYTES_MAX,
        text: "\nLIST\n",
        replies: "ERR 42 INVALID_REQUEST\nGROUPS\n",
        end: RunEnd::End,
    },
    Row {
        name: "a line that is too long",
        long: LINE_BYTES_MAX + 1,
        text: "\nLIST\n",
        replies: "ERR 42 INVALID_REQUEST\n",
        end: RunEnd::TooLong,
    },
];

/// A desk whose replies wait for no command.
struct Backed {
    desk: Desk,
}

impl Backend for Backed {
    ghost gives = { λ _ _ _ _. Unit {0} };

    fn answer(&mut self, request: Request) -> Reply {
        let token = ReplyToken::new(Ticket {
            session: 1,
            number: 1,
        });
        let asked = self
            .desk
            .request(token, request, Moment::from_millis(0), Uuid::nil());
        match asked {
            Ok(mut out) => match out.pop() {
                Some(outgoing) => outgoing.into_reply(),
                None => Reply::Done,
            },
            Err((_, token)) => token.refuse(Code::UnknownServerError).into_reply(),
        }
    }
}

fn input(rt: &impl Abort, alloc: Global, row: &Row) -> Vec<u8> {
    let mut bytes = vec![in alloc; b'a'; row.long].expect(rt, "memory");
    bytes
        .extend_from_slice(row.text.as_bytes())
        .expect(rt, "memory");
    bytes
}

// Serves the bytes as a stream. Returns the replies, and how the stream ended.
fn served(rt: &impl Abort, alloc: Global, bytes: &[u8]) -> (Vec<u8>, RunEnd) {
    let mut backend = Backed {
        desk: serving(rt, alloc),
    };
    let mut transport = StdTransport {
        reader: bytes,
        writer: Vec::new(alloc),
    };
    let end = run(alloc, &mut transport, &mut backend).expect(rt, "an end");
    let Backed { desk } = backend;
    let _ = desk.close();
    let StdTransport { reader: _, writer } = transport;
    (writer, end)
}

#[test]
fn each_line_of_a_stream_gets_its_reply(rt: HostRuntime) {
    for row in ROWS {
        let bytes = input(&rt, rt.alloc(), row);
        let (replies, end) = served(&rt, rt.alloc(), bytes.as_slice());
        assert_eq!(rt; replies.as_slice(), row.replies.as_bytes(), "{}", row.name);
        assert_eq!(rt; end, row.end, "{}", row.name);
    }
}
