//! Writing bytes whole, and text piece by piece.
ghost use Rattle.std.specs.Prelude.{OnOk, OnErr};
ghost use Rattle.tao_base.specs.Transfers.{PutsAll, PutsPart};
ghost use Rattle.taostore.specs.Output.{Tells, joined};

use tao_base::{Failed, Image, Sink, write_all};

/// How much text may wait before it is written.
const MAX_WAITING: usize = 1 << 16;

/// Writes the pieces one after another.
pub fn put_pieces<K: Sink>(sink: &mut K, pieces: &[&[u8]]) -> Result<(), Failed>
    ensures ok { OnOk result (PutsAll K.put K.faults sink.old sink.new (joined pieces.now)) }
    ensures err { OnErr result (PutsPart K.put K.faults sink.old sink.new (joined pieces.now)) }
{
    for piece in pieces {
        write_all(sink, piece)?;
    }
    Ok(())
}

/// Writes the text that waits, where it has become long.
pub fn put_waiting<K: Sink>(sink: &mut K, waiting: &mut Image) -> Result<(), Failed>
    ensures ok { OnOk result (Tells K.put K.faults sink.old sink.new waiting.old waiting.new) }
    ensures err { OnErr result (PutsPart K.put K.faults sink.old sink.new waiting.old) }
{
    if waiting.as_slice().len() < MAX_WAITING {
        return Ok(());
    }
    write_all(sink, waiting.as_slice())?;
    waiting.truncate(0);
    Ok(())
}
