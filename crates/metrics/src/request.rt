//! What the head of an HTTP request asks for.

ghost use Rattle.std.specs.Prelude.{◌≤◌, length};

use httparse::spans::{EMPTY_HEADER_SPAN, RequestSpans, Span, parse_request};
use httparse::{Error, Status};

/// The most header fields of a request.
const MAX_HEADERS: usize = 64;

/// The path of the page of metrics.
const PATH: &[u8] = b"/metrics";

/// What a request asks for.
#[derive(Clone, Copy, PartialEq, Eq)]
pub(crate) enum Asked {
    /// The page of metrics.
    Page,
    /// Another path.
    OtherPath,
    /// Another method than GET.
    OtherMethod,
    /// The head is not one of HTTP/1.0 or HTTP/1.1.
    Malformed,
    /// It has too many header fields.
    TooLong,
}

/// What the head in these bytes asks for; `None` if its end has not come.
pub(crate) fn read_head(head: &[u8]) -> Option<Asked> {
    let mut headers = [EMPTY_HEADER_SPAN; MAX_HEADERS];
    match parse_request(head, &mut headers) {
        Ok(Status::Complete(request)) => Some(judge(head, request)),
        Ok(Status::Partial) => None,
        Err(Error::TooManyHeaders) => Some(Asked::TooLong),
        Err(_) => Some(Asked::Malformed),
    }
}

fn judge(head: &[u8], request: RequestSpans) -> Asked {
    if bytes_of(head, request.method) != b"GET".as_slice() {
        return Asked::OtherMethod;
    }
    if bytes_of(head, request.path) != PATH {
        return Asked::OtherPath;
    }
    Asked::Page
}

fn bytes_of(head: &[u8], span: Span) -> &[u8] {
    head.get(span.start..span.end).unwrap_or_default()
}
