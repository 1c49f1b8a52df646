//! The answer to a scramble.
ghost use Rattle.std.specs.Prelude.{◌≡◌, ◌++◌};
ghost use Rattle.sha1.specs.Sha1.{sha1};
ghost use Rattle.wire_forms.specs.Answer.{xor_of, native_answer};

use sha1::Sha1;

/// The answer of `mysql_native_password` to a server's scramble: SHA1(password) XOR SHA1(scramble,
/// SHA1(SHA1(password))). An empty password is answered by no bytes at all, and not by this. Takes no
/// memory. (MySQL source documentation, `Authentication::NativePassword41`.)
pub fn native_answer(password: &[u8], scramble: &[u8; 20]) -> [u8; 20]
    ensures { result ≡ native_answer password.now scramble.now }
{
    let once = Sha1::digest(password);
    let twice = Sha1::digest(&once);
    xor_of(&once, &digest_of_both(scramble, &twice))
}

// The digest of one text after another.
fn digest_of_both(first: &[u8], second: &[u8]) -> [u8; 20]
    ensures { result ≡ sha1 (first.now ++ second.now) }
{
    let mut hasher = Sha1::new();
    hasher.update(first);
    hasher.update(second);
    hasher.finalize()
}

// Two texts, byte by byte.
#[tactic(auto, using(crate::proofs::Xors::xor_all))]
fn xor_of(first: &[u8; 20], second: &[u8; 20]) -> [u8; 20]
    ensures { result ≡ xor_of first.now second.now }
{
    let mut both = [0; 20];
    for i in 0..20 {
        both[i] = first[i] ^ second[i];
    }
    both
}
