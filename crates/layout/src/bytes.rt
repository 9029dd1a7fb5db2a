// Bytes put into a slice from a place on, where they fit. The end is the same either way: an empty slice measures.
ghost use Rattle.std.specs.Prelude.{[], ◌∷◌, ◌<◌};
ghost use Rattle.defs.specs.Layout.{spaces};
ghost use Rattle.laws.specs.Puts.{farthest, Put};

use slices::copy::copy;

// Each of these puts its bytes from `at` on where all of them fit, and answers where they end.
// As it is: (d) the three differ in the one line that stores; one function lent that line as a closure would be no shorter.
pub fn put_byte(byte: u8, at: usize, out: &mut [u8]) -> usize
    requires { at < farthest }
    ensures { Put (byte ∷ []) at result out.old out.new }
{
    let end = at + 1;
    if out.len() < end {
        return end;
    }
    out[at] = byte;
    end
}

pub fn put_spaces(n: usize, at: usize, out: &mut [u8]) -> usize
    requires { (at < farthest) × (n < farthest) }
    ensures { Put (spaces n) at result out.old out.new }
{
    let end = at + n;
    if out.len() < end {
        return end;
    }
    out[at..end].fill(b' ');
    end
}

pub fn put_piece(piece: &[u8], at: usize, out: &mut [u8]) -> usize
    requires { at < farthest }
    ensures { Put piece.now at result out.old out.new }
{
    let end = at + piece.len();
    if out.len() < end {
        return end;
    }
    copy(&mut out[at..end], piece);
    end
}
