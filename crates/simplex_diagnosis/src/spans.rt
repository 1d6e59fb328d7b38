//! Where the parts of a JSON text stand. The text is JSON; of another one the spans say nothing.
use std::alloc::{AllocError, Global};

/// A part of a text: from a place up to another, which is behind it.
#[derive(Clone, Copy, Debug, PartialEq, Eq)]
pub(crate) struct Span {
    pub(crate) start: usize,
    pub(crate) end: usize,
}

/// A member of an object: its name, without the quotes, and its value.
#[derive(Clone, Copy, Debug, PartialEq, Eq)]
pub(crate) struct Member {
    pub(crate) name: Span,
    pub(crate) value: Span,
}

/// Where a scan of a text is.
#[derive(Clone, Copy, Debug, PartialEq, Eq)]
enum Inside {
    /// Outside all strings.
    Plain,
    /// Inside a string.
    Text,
    /// Inside a string, behind a backslash.
    Escape,
}

/// A scan of a text: where it is, and how many brackets are open.
#[derive(Clone, Copy, Debug, PartialEq, Eq)]
struct Scan {
    inside: Inside,
    depth: u64,
}

impl Scan {
    const NEW: Scan = Scan {
        inside: Inside::Plain,
        depth: 0,
    };

    /// The scan behind this byte.
    fn behind(self, byte: u8) -> Scan {
        match self.inside {
            Inside::Escape => Scan {
                inside: Inside::Text,
                depth: self.depth,
            },
            Inside::Text => self.in_text(byte),
            Inside::Plain => self.in_plain(byte),
        }
    }

    fn in_text(self, byte: u8) -> Scan {
        let inside = match byte {
            b'\\' => Inside::Escape,
            b'"' => Inside::Plain,
            _ => Inside::Text,
        };
        Scan {
            inside,
            depth: self.depth,
        }
    }

    fn in_plain(self, byte: u8) -> Scan {
        match byte {
            b'"' => Scan {
                inside: Inside::Text,
                depth: self.depth,
            },
            b'{' | b'[' => Scan {
                inside: Inside::Plain,
                depth: self.depth.saturating_add(1),
            },
            b'}' | b']' => Scan {
                inside: Inside::Plain,
                depth: self.depth.saturating_sub(1),
            },
            _ => self,
        }
    }

    /// Whether a byte here parts two items, or a name and its value.
    fn is_between(self) -> bool {
        self.inside == Inside::Plain && self.depth == 0
    }
}

fn is_blank(byte: u8) -> bool {
    matches!(byte, b' ' | b'\t' | b'\n' | b'\r')
}

impl Span {
    /// All of the text.
    pub(crate) fn whole(bytes: &[u8]) -> Span {
        Span {
            start: 0,
            end: bytes.len(),
        }
    }

    /// The bytes.
    pub(crate) fn of<'b>(&self, bytes: &'b [u8]) -> &'b [u8] {
        bytes.get(self.start..self.end).unwrap_or(&[])
    }

    /// Without the blanks before it and behind it.
    pub(crate) fn trimmed(&self, bytes: &[u8]) -> Span {
        let part = self.of(bytes);
        let mut before = 0usize;
        let mut last = 0usize;
        let mut is_empty = true;
        for (place, byte) in part.iter().enumerate() {
            if is_blank(*byte) {
                continue;
            }
            if is_empty {
                before = place;
                is_empty = false;
            }
            last = place.saturating_add(1);
        }
        Span {
            start: self.start.saturating_add(before),
            end: self.start.saturating_add(last),
        }
    }

    /// Without its first and its last byte: what stands between brackets, or quotes.
    fn inner(&self) -> Span {
        Span {
            start: self.start.saturating_add(1),
            end: self.end.saturating_sub(1),
        }
    }

    /// The place of the first colon outside of strings and brackets.
    fn colon(&self, bytes: &[u8]) -> Option<usize> {
        let mut scan = Scan::NEW;
        for (place, byte) in self.of(bytes).iter().enumerate() {
            if *byte == b':' && scan.is_between() {
                return Some(self.start.saturating_add(place));
            }
            scan = scan.behind(*byte);
        }
        None
    }
}

/// The items of a list, or the members of an object as they stand, with what is between its brackets.
pub(crate) fn items(alloc: Global, bytes: &[u8], list: Span) -> Result<Vec<Span>, AllocError> {
    let inner = list.trimmed(bytes).inner();
    let mut found = Vec::new(alloc);
    let mut scan = Scan::NEW;
    let mut start = inner.start;
    for (place, byte) in inner.of(bytes).iter().enumerate() {
        let at = inner.start.saturating_add(place);
        if *byte == b',' && scan.is_between() {
            let item = Span { start, end: at };
            found.push(item.trimmed(bytes))?;
            start = at.saturating_add(1);
        }
        scan = scan.behind(*byte);
    }
    let last = Span {
        start,
        end: inner.end,
    };
    let last = last.trimmed(bytes);
    if last.start < last.end {
        found.push(last)?;
    }
    Ok(found)
}

/// The members of an object, in order.
pub(crate) fn members(
    alloc: Global,
    bytes: &[u8],
    object: Span,
) -> Result<Vec<Member>, AllocError> {
    let mut found = Vec::new(alloc);
    for item in &items(alloc, bytes, object)? {
        let Some(colon) = item.colon(bytes) else {
            continue;
        };
        let name = Span {
            start: item.start,
            end: colon,
        };
        let value = Span {
            start: colon.saturating_add(1),
            end: item.end,
        };
        found.push(Member {
            name: name.trimmed(bytes).inner(),
            value: value.trimmed(bytes),
        })?;
    }
    Ok(found)
}
