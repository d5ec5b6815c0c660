//! What no contract says: the text of a page, and the reply to each request.

use crate::{Kind, Page, Step, Visit};
use std::alloc::{AllocError, Global};
use std::io;
use std::io::{Read, Write};
use std::test::Fail;

/// The page of `new_page`, by the grammar of the format.
const PAGE: &str = "# HELP volume_runs How often it was mounted.\n\
                    # TYPE volume_runs gauge\n\
                    volume_runs 3\n\
                    # HELP calls_total Calls.\n\
                    # TYPE calls_total counter\n\
                    calls_total{call=\"read\"} 0\n\
                    calls_total{call=\"write\"} 18446744073709551615\n";

const HEAD: &str = "HTTP/1.1 200 OK\r\n\
                    Content-Type: text/plain; version=0.0.4; charset=utf-8\r\n\
                    Content-Length: 211\r\n\
                    Connection: close\r\n\r\n";

/// Requests, and what the reply begins with.
const REQUESTS: [(&str, &str); 6] = [
    ("GET /metrics HTTP/1.1\r\nHost: a\r\n\r\n", HEAD),
    ("GET /metrics HTTP/1.0\n\n", HEAD),
    ("GET / HTTP/1.1\r\n\r\n", "HTTP/1.1 404 Not Found\r\n"),
    (
        "POST /metrics HTTP/1.1\r\n\r\n",
        "HTTP/1.1 405 Method Not Allowed\r\n",
    ),
    ("no request\r\n\r\n", "HTTP/1.1 400 Bad Request\r\n"),
    ("GET /metrics HTTP/1.1\r\n", ""),
];

/// The most bytes that a stream gives or takes at once.
const PIECE: usize = 7;

/// More steps than a visit takes.
const MAX_STEPS: u32 = 2_000;

/// A stream that gives these bytes, and ends.
#[derive(Drop)]
struct Slow<'a> {
    gives: &'a [u8],
    takes: &'a mut Vec<u8>,
}

impl Read for Slow<'_> {
    fn read(&mut self, buf: &mut [u8]) -> io::Result<usize> {
        let count = self.gives.len().min(buf.len()).min(PIECE);
        buf[..count].copy_from_slice(&self.gives[..count]);
        self.gives = &self.gives[count..];
        Ok(count)
    }
}

impl Write for Slow<'_> {
    fn write(&mut self, buf: &[u8]) -> io::Result<usize> {
        let count = buf.len().min(PIECE);
        self.takes.extend_from_slice(&buf[..count])?;
        Ok(count)
    }

    fn flush(&mut self) -> io::Result<()> {
        Ok(())
    }
}

fn new_page(alloc: Global) -> Result<Page, AllocError> {
    let mut page = Page::new(alloc);
    page.metric(Kind::Gauge, "volume_runs", "How often it was mounted.", 3)?;
    page.begin(Kind::Counter, "calls_total", "Calls.")?;
    page.sample("calls_total", "call", "read", 0)?;
    page.sample("calls_total", "call", "write", u64::MAX)?;
    Ok(page)
}

/// Steps of a visit to its end.
fn finish(visit: Visit<Slow<'_>>, page: &Page) {
    let mut visit = visit;
    for _ in 0..MAX_STEPS {
        match visit.step() {
            Step::Asks => {
                visit.give(page);
            }
            Step::Goes => {}
            Step::Waits | Step::Ended => break,
        }
    }
}

fn reply_to(alloc: Global, request: &[u8]) -> Result<String, AllocError> {
    let mut reply = Vec::new(alloc);
    let stream = Slow {
        gives: request,
        takes: &mut reply,
    };
    finish(Visit::new(alloc, stream)?, &new_page(alloc)?);
    String::from_utf8_lossy(alloc, &reply)
}

#[test]
fn a_page_has_the_text_format(rt: HostRuntime) -> Result<(), Fail> {
    let page = new_page(rt.alloc())?;
    assert_eq!(rt; page.as_str(), PAGE);
    Ok(())
}

#[test]
fn a_request_gets_its_reply(rt: HostRuntime) -> Result<(), Fail> {
    for (request, head) in REQUESTS {
        let reply = reply_to(rt.alloc(), request.as_bytes())?;
        assert!(rt; reply.as_str().starts_with(head), "{request}{reply}");
        assert!(rt; reply.is_empty() == head.is_empty(), "{request}{reply}");
        assert!(rt;
            (head == HEAD) == reply.as_str().ends_with(PAGE),
            "{request}{reply}"
        );
    }
    let long = vec![in rt.alloc(); b'a'; 4_097]?;
    let reply = reply_to(rt.alloc(), &long)?;
    assert!(rt; reply.as_str().starts_with("HTTP/1.1 431 "), "{reply}");
    Ok(())
}
