// Writing piece by piece.
ghost use Rattle.std.specs.Prelude.{◌≡◌, ◌+◌, ◌≤◌, ◌++◌, length, take};

// Writes a piece at that place, and says where it ends.
pub(crate) fn put(out: &mut [u8], at: usize, piece: &[u8]) -> usize
    requires { at + length piece.now ≤ length out.old }
    ensures end { result ≡ at + length piece.now }
    ensures written { take result out.new ≡ take at out.old ++ piece.now }
    ensures len { length out.new ≡ length out.old }
{
    let end = at + piece.len();
    out[at..end].copy_from_slice(piece);
    end
}
