//! Frames that lie one behind another, by the places where they end.

ghost use Rattle.std.specs.Prelude.{◌≡◌, ◌≤◌, ◌<◌, ◌∷◌, length, get_or, slice_get, Some};
ghost use Rattle.schedule_replay.specs.FrameEnds.{AreEnds, frames_in};

// Where the frame of a place begins, which is where the one before it ends.
pub(crate) fn start_of(ends: &[u32], at: usize) -> usize
    requires there { at ≤ length ends.now }
    ensures { result ≡ get_or (0 ∷ ends.now) at 0 }
{
    if at == 0 {
        return 0;
    }
    ends[at - 1] as usize
}

// Where the frame of a place begins, and where it ends, in so many bytes.
pub(crate) fn bounds_of(ends: &[u32], at: usize, bytes: usize) -> (usize, usize)
    requires there { at < length ends.now }
    requires ends { AreEnds 0 ends.now bytes }
    ensures is { result ≡ (get_or (0 ∷ ends.now) at 0, get_or ends.now at 0) }
    ensures rising { result.0 ≤ result.1 }
    ensures inside { result.1 ≤ bytes }
{
    (start_of(ends, at), ends[at] as usize)
}

// The frame of a place.
pub(crate) fn frame_at<'a>(bytes: &'a [u8], ends: &[u32], at: usize) -> &'a [u8]
    requires there { at < length ends.now }
    requires ends { AreEnds 0 ends.now (length bytes.now) }
    ensures { slice_get (frames_in bytes.now ends.now) at ≡ Some result.now }
{
    let (start, end) = bounds_of(ends, at, bytes.len());
    &bytes[start..end]
}
