//! The bytes of frames whose numbers alone are written: for a stream on which images are sent as they lie in memory.
ghost use Rattle.std.specs.Prelude.{◌≡◌, ℕ, ◌+◌, ◌^◌, ◌<◌, List, ◌++◌, length};
ghost use Rattle.std.specs.Int.{w32, to_be_bytes};
ghost use Rattle.tao_wire.specs.Frames.{content, frame};
ghost use Rattle.tao_wire.specs.declared.message.Message.TheVariants.{Fetch, Path, Store, Stored};

/// The length field of a frame whose content has so many bytes.
pub fn length_bytes(len: u32) -> [u8; 4]
    ensures { result ≡ to_be_bytes w32 len }
{
    len.to_be_bytes()
}

pub fn fetch_frame(id: u64, leaf: u32) -> [u8; 17]
    ensures { result ≡ frame (Fetch id leaf) }
{
    let [i0, i1, i2, i3, i4, i5, i6, i7] = id.to_be_bytes();
    let [w0, w1, w2, w3] = leaf.to_be_bytes();
    [
        0, 0, 0, 13, 1, i0, i1, i2, i3, i4, i5, i6, i7, w0, w1, w2, w3,
    ]
}

/// What stands before the image in the frame of a store, where the image has so many bytes.
pub fn store_head(version: u32, image_len: u32) -> [u8; 9]
    requires { image_len + 5 < 2 ^ 32 }
    ensures { (image : List ℕ) → length image ≡ image_len → result ++ image ≡ frame (Store version image) }
{
    let [n0, n1, n2, n3] = (image_len + 5).to_be_bytes();
    let [v0, v1, v2, v3] = version.to_be_bytes();
    [n0, n1, n2, n3, 3, v0, v1, v2, v3]
}

/// What stands before the image in the content of a path.
pub fn path_head(id: u64) -> [u8; 9]
    ensures { (image : List ℕ) → result ++ image ≡ content (Path id image) }
{
    let [i0, i1, i2, i3, i4, i5, i6, i7] = id.to_be_bytes();
    [2, i0, i1, i2, i3, i4, i5, i6, i7]
}

pub fn stored_content(version: u32) -> [u8; 5]
    ensures { result ≡ content (Stored version) }
{
    let [v0, v1, v2, v3] = version.to_be_bytes();
    [4, v0, v1, v2, v3]
}
