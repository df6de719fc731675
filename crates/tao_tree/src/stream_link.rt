//! A link over a stream to a node.
ghost use Rattle.std.specs.Prelude.{◌≡◌, ◌+◌, ◌*◌, ◌^◌, ◌<◌, ◌∷◌, [], length, None, IfOk, OnOk, OnErr};
ghost use Rattle.tao_base.specs.Causes.{HasCause};
ghost use Rattle.tao_base.specs.Limits.{bucket_len};
ghost use Rattle.tao_base.specs.Links.{TellsMore, IsSendable, asked_of};
ghost use Rattle.tao_base.specs.Transfers.{PutsAll, PutsPart};
ghost use Rattle.tao_base.specs.declared.links.Asked.TheVariants.{Fetch as FetchAsked};
ghost use Rattle.tao_wire.specs.Frames.{frame};
ghost use Rattle.tao_wire.specs.declared.message.Message.TheVariants.{Path, Store, Stored};
ghost use Rattle.tao_tree.specs.Streams.{stream_reach, halves, fetching, storing, IsAnswered, Fails};

use crate::answers::{receive_path, receive_stored};
use std::alloc::Global;
use std::marker::Model;
use std::sync::Wait;
use tao_base::{Failed, Link, NoMemory, Order, Params, Sink, Source, write_all};
use tao_wire::{fetch_frame, store_head};

/// A link over a stream, whose halves are a source and a sink. A call writes its frame and reads the frame of the answer that it wants,
/// and nothing beyond. Any other answer counts as a fault of the link.
#[derive(Debug, Drop)]
pub struct StreamLink<S, K> {
    p: Params,
    source: S,
    sink: K,
    wrong: u64,
    // the kind byte, the id and the path of the answer to a fetch
    room: Vec<u8>,
}

impl<S, K> Model for StreamLink<S, K> {
    ghost use Rattle.std.specs.Prelude.{◌≡◌, ◌+◌, vec_len};
    ghost use Rattle.tao_tree.specs.Streams.{StreamState, HasPathRoom};

    ghost Value = { StreamState S K };

    ghost view = { λ l. record { shape = l.p; source = l.source; sink = l.sink; wrong = l.wrong } };

    ghost invariant = { λ l. HasPathRoom l.p (vec_len l.room) };
}

impl<S: Source, K: Sink> StreamLink<S, K> {
    ghost use Rattle.tao_tree.specs.Streams.{new_stream};

    /// A link over this source and this sink, preallocated for one path.
    pub fn new(alloc: Global, p: &Params, source: S, sink: K) -> Result<StreamLink<S, K>, NoMemory>
    where
        S: Drop,
        K: Drop,
        ensures { IfOk result (λ link. link ≡ new_stream p.now source sink) }
    {
        let path_len = (p.l() as usize + 1) * p.bucket_len() as usize;
        Ok(StreamLink {
            p: *p,
            source,
            sink,
            wrong: 0,
            room: vec![in alloc; 0; 9 + path_len]?,
        })
    }

    /// The source and the sink again.
    pub fn into_parts(self) -> (S, K)
    where
        S: Drop,
        K: Drop,
        ensures source { result.0 ≡ self.source }
        ensures sink { result.1 ≡ self.sink }
    {
        (self.source, self.sink)
    }
}

impl<S: Source, K: Sink> Link for StreamLink<S, K> {
    ghost faults = { λ s. S.faults s.source + K.faults s.sink + s.wrong };

    ghost reach = { λ s. stream_reach s.shape };

    ghost told = { λ _. None };

    fn fetch<R: Wait>(&mut self, _rt: &R, id: u64, leaf: u32, path: &mut [u8]) -> Result<(), Failed>
        requires leaf { leaf < 2 ^ self.old.shape.l }
        requires path { length path.old ≡ (self.old.shape.l + 1) * bucket_len self.old.shape }
        ensures reach { stream_reach self.new.shape ≡ stream_reach self.old.shape }
        ensures told { TellsMore None None (FetchAsked id leaf) result (path.new ∷ []) [] }
        ensures path_kept { OnErr result (path.new ≡ path.old) }
        ensures cause { HasCause (S.faults self.old.source + K.faults self.old.sink + self.old.wrong) (S.faults self.new.source + K.faults self.new.sink + self.new.wrong) result }
        ensures shape { self.new.shape ≡ self.old.shape }
        ensures ok { OnOk result (IsAnswered (halves S.left S.faults K.put K.faults) (fetching id leaf (length path.old)) self.old self.new (Path id path.new)) }
        ensures err { OnErr result (Fails (halves S.left S.faults K.put K.faults) (fetching id leaf (length path.old)) self.old self.new) }
    {
        write_all(&mut self.sink, &fetch_frame(id, leaf))?;
        if !receive_path(&mut self.source, &mut self.room, id)? {
            self.wrong = self.wrong.saturating_add(1);
            return Err(Failed);
        }
        path.copy_from_slice(&self.room[9..]);
        Ok(())
    }

    fn store<R: Wait>(&mut self, _rt: &R, order: &Order) -> Result<(), Failed>
        requires { IsSendable (stream_reach self.old.shape) order.now }
        ensures reach { stream_reach self.new.shape ≡ stream_reach self.old.shape }
        ensures told { TellsMore None None (asked_of order.now) result [] (order.now.version ∷ []) }
        ensures cause { HasCause (S.faults self.old.source + K.faults self.old.sink + self.old.wrong) (S.faults self.new.source + K.faults self.new.sink + self.new.wrong) result }
        ensures shape { self.new.shape ≡ self.old.shape }
        ensures ok { OnOk result (IsAnswered (halves S.left S.faults K.put K.faults) (storing order.now.version order.now.image) self.old self.new (Stored order.now.version)) }
        ensures err { OnErr result (Fails (halves S.left S.faults K.put K.faults) (storing order.now.version order.now.image) self.old self.new) }
    {
        // tells the limits of the parameters
        let _within = self.p.l();
        put_store(&mut self.sink, order.version, order.image.as_slice())?;
        if !receive_stored(&mut self.source, order.version)? {
            self.wrong = self.wrong.saturating_add(1);
            return Err(Failed);
        }
        Ok(())
    }
}

// Writes the frame of a store: what stands before the image, and the image as it lies.
#[tactic(auto, using(tao_base::proofs::TransferLemmas::puts_then, tao_base::proofs::TransferLemmas::part_of_more, tao_base::proofs::TransferLemmas::part_then))]
fn put_store<K: Sink>(sink: &mut K, version: u32, image: &[u8]) -> Result<(), Failed>
    requires { length image.now + 5 < 2 ^ 32 }
    ensures ok { OnOk result (PutsAll K.put K.faults sink.old sink.new (frame (Store version image.now))) }
    ensures err { OnErr result (PutsPart K.put K.faults sink.old sink.new (frame (Store version image.now))) }
    ensures cause { HasCause (K.faults sink.old) (K.faults sink.new) result }
{
    write_all(sink, &store_head(version, image.len() as u32))?;
    write_all(sink, image)
}
