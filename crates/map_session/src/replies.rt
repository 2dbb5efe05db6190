//! Replies.
ghost use Rattle.std.specs.Prelude.{[], IfOk};
ghost use Rattle.map_machine.specs.Replies.{refused_reply, load_refused_reply, undefined_reply, value_reply};

use map_display::put_number;
use map_machine::Kind;
use map_nums::NoMemory;
use map_words::Name;
use std::alloc::Global;

/// The bytes to write for a line or a load, and what became of it.
#[derive(Drop)]
pub struct Reply {
    pub bytes: Vec<u8>,
    pub kind: Kind,
}

impl Reply {
    ghost use Rattle.map_session.specs.Said.{Says};

    /// No bytes.
    pub(crate) fn empty(alloc: Global, kind: Kind) -> Reply
        ensures { Says [] kind result }
    {
        Reply {
            bytes: Vec::new(alloc),
            kind,
        }
    }

    /// To a request.
    pub(crate) fn shown(bytes: Vec<u8>) -> Reply
        ensures { Says bytes.items Kind.Shown result }
    {
        Reply {
            bytes,
            kind: Kind::Shown,
        }
    }

    /// To a refused line.
    pub(crate) fn refused(alloc: Global, cause: &[u8]) -> Result<Reply, NoMemory>
        ensures { IfOk result (Says (refused_reply cause.now) Kind.Refused) }
    {
        let mut bytes = Vec::from_slice(alloc, b"refused ")?;
        bytes.extend_from_slice(cause)?;
        bytes.push(b'\n')?;
        Ok(Reply {
            bytes,
            kind: Kind::Refused,
        })
    }

    /// To a refused load.
    pub(crate) fn load_refused(alloc: Global, name: &Name, cause: &[u8]) -> Result<Reply, NoMemory>
        ensures { IfOk result (Says (load_refused_reply name.now cause.now) Kind.Refused) }
    {
        let mut bytes = Vec::from_slice(alloc, b"refused load ")?;
        bytes.extend_from_slice(name.bytes())?;
        bytes.push(b' ')?;
        bytes.extend_from_slice(cause)?;
        bytes.push(b'\n')?;
        Ok(Reply {
            bytes,
            kind: Kind::Refused,
        })
    }

    /// To a request for a layer that lacks a name.
    pub(crate) fn undefined(alloc: Global, name: &Name, lacking: &Name) -> Result<Reply, NoMemory>
        ensures { IfOk result (Says (undefined_reply name.now lacking.now) Kind.Shown) }
    {
        let mut bytes = Vec::from_slice(alloc, b"undefined ")?;
        bytes.extend_from_slice(name.bytes())?;
        bytes.extend_from_slice(b": ")?;
        bytes.extend_from_slice(lacking.bytes())?;
        bytes.push(b'\n')?;
        Ok(Reply::shown(bytes))
    }

    /// To a request for the cell in row `r` and column `c`.
    pub(crate) fn value(
        alloc: Global,
        name: &Name,
        r: u32,
        c: u32,
        cell: &[u8],
    ) -> Result<Reply, NoMemory>
        ensures { IfOk result (Says (value_reply name.now r c cell.now) Kind.Shown) }
    {
        let mut bytes = Vec::from_slice(alloc, b"value ")?;
        bytes.extend_from_slice(name.bytes())?;
        bytes.push(b' ')?;
        put_number(&mut bytes, r as u64)?;
        bytes.push(b' ')?;
        put_number(&mut bytes, c as u64)?;
        bytes.push(b' ')?;
        bytes.extend_from_slice(cell)?;
        bytes.push(b'\n')?;
        Ok(Reply::shown(bytes))
    }
}
