// A comparison of a tag that reads all of it, wherever the first difference is.
ghost use Rattle.std.specs.Prelude.{◌≡◌, ◌↔◌, IsTrue, length};
ghost use Rattle.sp_hmac.specs.Same.{difference};

/// Whether the two are equal. Where the lengths are, every byte is read before the answer.
pub(crate) fn is_same(tag: &[u8], expected: &[u8; 32]) -> bool
    ensures { IsTrue result ↔ (tag.now ≡ expected.now) }
{
    if tag.len() != expected.len() {
        return false;
    }
    difference(tag, expected) == 0
}

/// The `or` of all differences. A loop that ends at the first one gives another value.
#[inline(never)]
fn difference(tag: &[u8], expected: &[u8; 32]) -> u8
    requires { length tag.now ≡ 32 }
    ensures { result ≡ difference tag.now expected.now 32 }
{
    let mut difference = 0u8;
    'bytes: for i in 0..expected.len() {
        difference |= tag[i] ^ expected[i];
    }
    difference
}
