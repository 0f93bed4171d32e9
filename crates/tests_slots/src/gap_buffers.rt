// Edits of a gap buffer.
use gap_buffer::GapBuf;
use std::alloc::{AllocError, Global};
use std::test::Fail;

// Appends `byte`.
fn append(buf: &mut GapBuf<u8>, byte: u8) -> Result<(), AllocError> {
    buf.reserve(1)?;
    buf.insert(buf.len(), byte);
    Ok(())
}

// Returns a buffer with these bytes.
fn filled(alloc: Global, bytes: &[u8]) -> Result<GapBuf<u8>, AllocError> {
    let mut buf = GapBuf::new(alloc);
    for byte in bytes {
        append(&mut buf, *byte)?;
    }
    Ok(buf)
}

// Whether these are the bytes of the buffer, in both parts and at each index.
fn has_bytes(buf: &GapBuf<u8>, bytes: &[u8]) -> bool {
    let (front, back) = buf.slices();
    if buf.len() != bytes.len() || front.len() > bytes.len() {
        return false;
    }
    for (index, byte) in bytes.iter().enumerate() {
        if index >= buf.len() || buf.get(index) != byte {
            return false;
        }
    }
    front == &bytes[..front.len()] && back == &bytes[front.len()..]
}

// An edit of a buffer of at most six bytes.
#[derive(Clone, Copy)]
enum Edit {
    Move {
        from: usize,
        to: usize,
        count: usize,
    },
    Insert {
        index: usize,
        byte: u8,
    },
    // Removes `byte` at `index`.
    Remove {
        index: usize,
        byte: u8,
    },
    Set {
        index: usize,
        byte: u8,
    },
    // Replaces `old` at `index` by `byte`.
    Replace {
        index: usize,
        byte: u8,
        old: u8,
    },
    Swap {
        index: usize,
        other: usize,
    },
    Truncate {
        len: usize,
    },
}

// Moves a block of a buffer. Returns whether the buffer has these indexes.
fn move_block(buf: &mut GapBuf<u8>, from: usize, to: usize, count: usize) -> bool {
    let is_inside = from < 6 && count < 6 && from + count <= buf.len() && to <= buf.len();
    if is_inside {
        buf.move_range(from, to, count);
    }
    is_inside
}

// Inserts a byte. Returns whether the buffer has its index and the memory for it.
fn insert(buf: &mut GapBuf<u8>, index: usize, byte: u8) -> bool {
    let is_inside = buf.reserve(1).is_ok() && index <= buf.len();
    if is_inside {
        buf.insert(index, byte);
    }
    is_inside
}

// Applies `edit` to `buf`. Returns whether the buffer has its indexes and the byte that it removes or
// replaces.
fn run(buf: &mut GapBuf<u8>, edit: Edit) -> bool {
    match edit {
        Edit::Move { from, to, count } => move_block(buf, from, to, count),
        Edit::Insert { index, byte } => insert(buf, index, byte),
        Edit::Remove { index, byte } => index < buf.len() && buf.remove(index) == byte,
        Edit::Set { index, byte } => {
            let is_inside = index < buf.len();
            if is_inside {
                buf.set(index, byte);
            }
            is_inside
        }
        Edit::Replace { index, byte, old } => index < buf.len() && buf.replace(index, byte) == old,
        Edit::Swap { index, other } => {
            let is_inside = index < buf.len() && other < buf.len();
            if is_inside {
                buf.swap(index, other);
            }
            is_inside
        }
        Edit::Truncate { len } => {
            buf.truncate(len);
            true
        }
    }
}

// Edits of a buffer with the bytes 1 to 5, and its bytes after each one.
static EDITS: [(Edit, &[u8]); 10] = [
    (
        Edit::Move {
            from: 1,
            to: 3,
            count: 1,
        },
        &[1, 3, 2, 4, 5],
    ),
    (Edit::Insert { index: 2, byte: 9 }, &[1, 3, 9, 2, 4, 5]),
    (Edit::Remove { index: 0, byte: 1 }, &[3, 9, 2, 4, 5]),
    (Edit::Set { index: 1, byte: 7 }, &[3, 7, 2, 4, 5]),
    (
        Edit::Replace {
            index: 2,
            byte: 6,
            old: 2,
        },
        &[3, 7, 6, 4, 5],
    ),
    (Edit::Swap { index: 0, other: 4 }, &[5, 7, 6, 4, 3]),
    (
        Edit::Move {
            from: 0,
            to: 5,
            count: 2,
        },
        &[6, 4, 3, 5, 7],
    ),
    (
        Edit::Move {
            from: 3,
            to: 1,
            count: 2,
        },
        &[6, 5, 7, 4, 3],
    ),
    (Edit::Truncate { len: 9 }, &[6, 5, 7, 4, 3]),
    (Edit::Truncate { len: 2 }, &[6, 5]),
];

#[test]
fn edits_are_those_of_a_list(rt: HostRuntime) -> Result<(), Fail> {
    let mut buf = filled(rt.alloc(), &[1, 2, 3, 4, 5])?;
    assert!(rt; has_bytes(&buf, &[1, 2, 3, 4, 5]));
    for (edit, bytes) in EDITS.as_slice() {
        assert!(rt; run(&mut buf, *edit) && has_bytes(&buf, bytes), "{bytes:?}");
    }
    Ok(())
}
