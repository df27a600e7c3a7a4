//! A name.
ghost use Rattle.std.specs.Prelude.{◌≡◌, ◌≤◌, length, take};
ghost use Rattle.std.specs.Cmp.{on_equiv, on_per, partial_equiv_from_equiv};
ghost use Rattle.std.specs.Cmp.Lexicographic.{nat_list_eq_equiv};
ghost use Rattle.std.specs.Str.{bytes_eq};
ghost use Rattle.line_texts.specs.Letters.{letters_of, padded};

/// So many bytes has the longest name.
pub(super) const MOST: usize = 16;

/// A name. There are many, so their bytes lie within them, and zeros behind.
#[derive(Clone, Copy)]
pub(super) struct Name {
    bytes: [u8; MOST],
    length: u8,
    ghost is_short: { length ≤ 16 },
    ghost is_padded: { bytes ≡ padded (take length bytes) },
}

const _: () = prove!(size_of::<Name>() == 17);

impl Name {
    pub(super) fn new(text: &[u8]) -> Name
        requires { length text.now ≤ 16 }
        ensures { take result.length result.bytes ≡ text.now }
    {
        let mut bytes = [0; MOST];
        bytes[..text.len()].copy_from_slice(text);
        Name {
            bytes,
            length: text.len() as u8,
        }
    }

    pub(super) fn text(&self) -> &[u8]
        ensures { result.now ≡ take self.now.length self.now.bytes }
    {
        &self.bytes[..self.length as usize]
    }

    /// The bytes as one number, which no other name has but for zeros at its end.
    pub(super) fn letters(&self) -> u128
        ensures { result ≡ letters_of (take self.now.length self.now.bytes) }
    {
        u128::from_le_bytes(self.bytes)
    }
}

impl PartialEq for Name {
    ghost eq = { λ x y. bytes_eq (take x.length x.bytes) (take y.length y.bytes) };

    ghost laws = { on_per (λ x. take x.length x.bytes) (partial_equiv_from_equiv nat_list_eq_equiv) };

    // All bytes at once, whatever the length is: behind a name are zeros.
    fn eq(&self, other: &Name) -> bool {
        self.length == other.length && self.bytes == other.bytes
    }
}

impl Eq for Name {
    ghost laws = { on_equiv (λ x. take x.length x.bytes) nat_list_eq_equiv };
}
