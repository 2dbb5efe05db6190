//! The reply to an accepted edit, in room that was taken before the edit.
ghost use Rattle.std.specs.Prelude.{◌≡◌, ◌+◌, ◌++◌, ◌≤◌, length, vec_len, vec_capacity, IfOk};
ghost use Rattle.kept_map.specs.Repairs.{counts_view};
ghost use Rattle.map_machine.specs.Causes.{counted};
ghost use Rattle.map_machine.specs.Replies.{counted_reply};
ghost use Rattle.map_session.specs.Said.{Says};
ghost use Rattle.map_session.specs.Rooms.{IsFree};

use crate::replies::Reply;
use itoa::Buffer;
use live_engine::Accepted;
use map_machine::Kind;
use map_nums::NoMemory;
use std::alloc::Global;

/// The most bytes of such a reply: its words, and four numbers of up to 20 digits.
const LONGEST: usize = 112;

/// Room for the reply to an accepted edit.
#[derive(Drop)]
pub(crate) struct ReplyRoom {
    bytes: Vec<u8>,
}

impl ReplyRoom {
    pub(crate) fn new(alloc: Global) -> Result<ReplyRoom, NoMemory>
        ensures { IfOk result IsFree }
    {
        Ok(ReplyRoom {
            bytes: Vec::with_capacity(alloc, LONGEST)?,
        })
    }

    /// The reply to an accepted edit. It takes no memory.
    pub(crate) fn filled(self, accepted: Accepted) -> Reply
        requires { IsFree self }
        ensures { Says (counted_reply accepted.number (counts_view accepted.counts)) Kind.Accepted result }
    {
        let mut bytes = self.bytes;
        put_counted(&mut bytes, b"ok", accepted.number);
        put_counted(&mut bytes, b" changed", accepted.counts.changed);
        put_counted(&mut bytes, b" evaluated", accepted.counts.evaluated);
        put_counted(&mut bytes, b" worked", accepted.counts.worked);
        put(&mut bytes, b"\n");
        Reply {
            bytes,
            kind: Kind::Accepted,
        }
    }
}

/// Puts a word and a number.
fn put_counted(text: &mut Vec<u8>, word: &[u8], number: u64)
    requires { vec_len text.old + length word.now + 21 ≤ vec_capacity text.old }
    ensures text { text.new.items ≡ text.old.items ++ counted word.now number }
    ensures length { vec_len text.new ≤ vec_len text.old + length word.now + 21 }
    ensures room { vec_capacity text.old ≤ vec_capacity text.new }
{
    put(text, word);
    put(text, b" ");
    put(text, Buffer::new().format(number).as_bytes());
}

/// Puts bytes.
fn put(text: &mut Vec<u8>, bytes: &[u8])
    requires { vec_len text.old + length bytes.now ≤ vec_capacity text.old }
    ensures text { text.new.items ≡ text.old.items ++ bytes.now }
    ensures length { vec_len text.new ≡ vec_len text.old + length bytes.now }
    ensures room { vec_capacity text.old ≤ vec_capacity text.new }
{
    let Ok(()) = text.extend_from_slice(bytes) else {
        unreachable!()
    };
}
