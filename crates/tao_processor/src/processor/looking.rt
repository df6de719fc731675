//! Answers of the server to fetches and to the closing scan.
ghost use Rattle.std.specs.Prelude.{◌≡◌, ◌+◌, ◌*◌, ◌^◌, ◌<◌, [], length, OnOk, OnErr};
ghost use Rattle.std.specs.List.{filter_map};
ghost use Rattle.std.specs.Result.{result_err};
ghost use Rattle.tao_base.specs.Limits.{bucket_len};
ghost use Rattle.tao_images.specs.Answers.{leaf_refusal, buckets_scanned};
ghost use Rattle.tao_images.specs.Paths.{held_in};
ghost use Rattle.tao_processor.specs.State.{look_refusal, buckets_looked};

use super::Processor;
use crate::looking::{KnownNodes, NewNodes};
use tao_bucket::Room;
use tao_images::{Refused, read_path};

impl Processor {
    /// Reads the answer to a fetch of the path to a leaf: the buckets of the nodes that the proxy doesn't hold.
    pub fn look(&mut self, leaf: u32, path: &[u8]) -> Result<(), Refused>
        requires leaf { leaf < 2 ^ self.old.history.opening.shape.l }
        requires path { length path.now ≡ (self.old.history.opening.shape.l + 1) * bucket_len self.old.history.opening.shape }
        ensures fault { result_err result ≡ look_refusal self.old leaf path.now }
        ensures ok { OnOk result (self.new ≡ record self.old { looked = buckets_looked self.old leaf path.now }) }
        ensures err { OnErr result (self.new ≡ record self.old { looked = [] }) }
    {
        self.looked = 0;
        let known = KnownNodes {
            p: self.p,
            holdings: &self.holdings,
            tags: &self.tags,
            no_tag: [0; 32],
        };
        self.looked = read_path(&self.p, &self.key, &known, leaf, path, &mut self.rooms)?;
        Ok(())
    }

    /// Reads the answer to the closing scan at a leaf: of the nodes that no smaller leaf's path has, the buckets of those that the proxy doesn't hold.
    pub fn look_new(&mut self, leaf: u32, path: &[u8]) -> Result<(), Refused>
        requires leaf { leaf < 2 ^ self.old.history.opening.shape.l }
        requires path { length path.now ≡ (self.old.history.opening.shape.l + 1) * bucket_len self.old.history.opening.shape }
        ensures fault { result_err result ≡ leaf_refusal self.old.key self.old.history leaf path.now }
        ensures ok { OnOk result (self.new ≡ record self.old { looked = buckets_scanned self.old.key self.old.history leaf path.now }) }
        ensures err { OnErr result (self.new ≡ record self.old { looked = [] }) }
    {
        self.looked = 0;
        let known = KnownNodes {
            p: self.p,
            holdings: &self.holdings,
            tags: &self.tags,
            no_tag: [0; 32],
        };
        let new = NewNodes { known, leaf };
        self.looked = read_path(&self.p, &self.key, &new, leaf, path, &mut self.rooms)?;
        Ok(())
    }

    /// The rooms of the buckets that were looked at last.
    pub fn looked(&self) -> &[Room]
        ensures { filter_map held_in result.now ≡ self.now.looked }
    {
        &self.rooms[..self.looked]
    }
}
