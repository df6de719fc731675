//! Copies into preallocated rooms.
ghost use Rattle.std.specs.Prelude.{◌≡◌, length, take};
ghost use Rattle.tao_record.specs.Rooms.{Fit, EntryFits, BucketFits};

use tao_base::{Bucket, Buckets, Entries, Entry};

/// Makes the list of rooms the list of these buckets.
pub(crate) fn fill_buckets(rooms: &mut Buckets, buckets: &[Bucket])
    requires { Fit BucketFits rooms.old buckets.now }
    ensures { rooms.new ≡ buckets.now }
{
    copy_buckets(rooms.as_mut_slice(), buckets);
    rooms.truncate(buckets.len());
}

// Copies the buckets to the first rooms.
fn copy_buckets(rooms: &mut [Bucket], buckets: &[Bucket])
    requires { Fit BucketFits rooms.old buckets.now }
    ensures { take (length buckets.now) rooms.new ≡ buckets.now }
{
    for (i, bucket) in buckets.iter().enumerate() {
        copy_bucket(&mut rooms[i], bucket);
    }
}

fn copy_bucket(room: &mut Bucket, bucket: &Bucket)
    requires { BucketFits room.old bucket.now }
    ensures { room.new ≡ bucket.now }
{
    room.node = bucket.node;
    room.version = bucket.version;
    room.nonce = bucket.nonce;
    fill_entries(&mut room.entries, bucket.entries.as_slice());
}

fn fill_entries(rooms: &mut Entries, entries: &[Entry])
    requires { Fit EntryFits rooms.old entries.now }
    ensures { rooms.new ≡ entries.now }
{
    copy_entries(rooms.as_mut_slice(), entries);
    rooms.truncate(entries.len());
}

// Copies the entries to the first rooms.
fn copy_entries(rooms: &mut [Entry], entries: &[Entry])
    requires { Fit EntryFits rooms.old entries.now }
    ensures { take (length entries.now) rooms.new ≡ entries.now }
{
    for (i, entry) in entries.iter().enumerate() {
        copy_entry(&mut rooms[i], entry);
    }
}

fn copy_entry(room: &mut Entry, entry: &Entry)
    requires { EntryFits room.old entry.now }
    ensures { room.new ≡ entry.now }
{
    room.id = entry.id;
    room.value
        .as_mut_slice()
        .copy_from_slice(entry.value.as_slice());
}
