// Bytes: where the next mark stands.
ghost use Rattle.std.specs.Prelude.{◌≡◌, ◌+◌, ◌==◌, ◌≤◌, drop, length};
ghost use Rattle.std.specs.List.{position_or_len};
ghost use Rattle.text.specs.Model.{up_to};

// How many bytes stand before the first such byte.
fn bytes_before(s: &[u8], mark: u8) -> usize
    ensures count { result ≡ position_or_len (λ b. b == mark) s.now }
    ensures fits { result ≤ length s.now }
{
    s.iter().take_while(|b| **b != mark).count()
}

// The place of the first such byte from `from` on, or the end. The bytes before it are not looked at: an iterator's
// `skip` would step over each of them.
pub fn find(s: &[u8], from: usize, mark: u8) -> usize
    ensures { result ≡ from + up_to mark (drop from s.now) }
{
    if s.len() <= from {
        return from;
    }
    from + bytes_before(&s[from..], mark)
}
