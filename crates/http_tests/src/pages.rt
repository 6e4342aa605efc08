//! The page for an operator, with names and tags that are markup.
use fax_http::{
    CallView, CalledView, CountView, Health, JobView, LineView, PageView, UndeliveredView,
    write_page,
};
use std::alloc::{AllocError, Global};

const LINES: &[LineView<'static>] = &[
    LineView {
        name: "a<1>",
        calling: Some(CallView {
            call: 4,
            tag: Some("\"><script>alert('&')</script>"),
        }),
        called: CalledView::Idle,
        waiting: 0,
    },
    LineView {
        name: "b",
        calling: None,
        called: CalledView::Asks(CallView { call: 2, tag: None }),
        waiting: 3,
    },
    LineView {
        name: "c",
        calling: None,
        called: CalledView::Sends(CallView {
            call: 7,
            tag: Some("+49301234/c7"),
        }),
        waiting: 1,
    },
];

const JOBS: &[JobView<'static>] = &[JobView {
    line: "c",
    call: CallView { call: 6, tag: None },
    pages: 3,
    delivered: 2,
    outcome: "a command was not answered",
}];

const UNDELIVERED: &[UndeliveredView<'static>] = &[UndeliveredView {
    line: "a<1>",
    life: 12,
    call: CallView {
        call: 9,
        tag: Some("49&1"),
    },
    pages: 4,
    tries: 3,
    at: "Sun, 06 Nov 1994 08:49:37 GMT",
    outcome: "its call could not be placed: 486",
}];

const COUNTS: &[CountView<'static>] = &[CountView {
    name: "pages confirmed",
    value: 18_446_744_073_709_551_615,
}];

/// What the page of all that has.
const SHOWN: &[&[u8]] = &[
    b"<tr><th scope=\"row\">a&lt;1&gt;</th><td>receives call 4, &quot;&gt;&lt;script&gt;alert(&#39;&amp;&#39;)&lt;/script&gt;</td><td>idle</td><td class=\"number\">0</td></tr>\n",
    b"<td>asks for the call of the job of call 2</td><td class=\"number\">3</td>",
    b"<td>sends the pages of call 7, +49301234/c7</td>",
    b"<th scope=\"row\">c</th><td>call 6</td><td>2 of 3</td><td>a command was not answered</td>",
    b"<td class=\"number\">18446744073709551615</td>",
    b"<img src=\"/undelivered/a%3C1%3E/12/9.png\" alt=\"The first page of call 9, 49&amp;1\" loading=\"lazy\">\n",
    b"<h3>a&lt;1&gt;: call 9, 49&amp;1</h3>\n<p>Pages: 4. Tries: 3, the last: Sun, 06 Nov 1994 08:49:37 GMT.</p>\n<p>Why: its call could not be placed: 486.</p>\n",
    b"<code>faxgate say SOCKET retry a&lt;1&gt; 12 9</code>",
    b"<p>Other lines: 97.</p>",
    b"<li>the spool's disk has failed</li>",
];

/// What one of a service that serves no line has.
const EMPTY: &[&[u8]] = &[
    b"<p><strong>Well.</strong></p>",
    b"<p>None.</p>",
    b"</html>\n",
];

/// What none has: markup of a tag, and what is not wrong.
const HIDDEN: &[&[u8]] = &[b"<script", b"turns are late"];

/// A page of these lines, jobs and counts, of a service whose disk has failed or that is well.
fn page_of(
    alloc: Global,
    has_failed_disk: bool,
    lines: &[LineView<'_>],
    others: u64,
    jobs: &[JobView<'_>],
    undelivered: &[UndeliveredView<'_>],
    counts: &[CountView<'_>],
) -> Result<Vec<u8>, AllocError> {
    let view = PageView {
        health: Health {
            is_stopping: false,
            has_failed_disk,
            is_late: false,
        },
        lines,
        others,
        jobs,
        undelivered,
        counts,
    };
    write_page(alloc, &view)
}

/// How many of some texts stand in another one.
fn count_in(text: &[u8], parts: &[&[u8]]) -> usize {
    let mut count = 0usize;
    for part in parts {
        for window in text.windows(part.len().max(1)) {
            if window == *part {
                count = count.saturating_add(1);
                break;
            }
        }
    }
    count
}

/// How many texts the page of all that has of what it shows and of what it hides, and an empty one of its own.
fn counted(alloc: Global) -> Result<[usize; 3], AllocError> {
    let page = page_of(alloc, true, LINES, 97, JOBS, UNDELIVERED, COUNTS)?;
    let empty = page_of(alloc, false, &[], 0, &[], &[], &[])?;
    Ok([
        count_in(page.as_slice(), SHOWN),
        count_in(page.as_slice(), HIDDEN),
        count_in(empty.as_slice(), EMPTY),
    ])
}

#[test]
fn a_page_shows_texts_as_they_are(rt: HostRuntime) {
    assert!(rt; counted(rt.alloc()) == Ok([SHOWN.len(), 0, EMPTY.len()]));
}
