//! The bytes of a character that are held back until it is known whether it is escaped.

ghost use Rattle.std.specs.Prelude.{◌≡◌};
ghost use Rattle.json_controls.specs.Controls.{after, begun, code, held_bytes, is_control, is_nothing, next};

/// The bytes that are held back: the first ones of a character.
#[derive(Clone, Copy)]
pub(crate) enum HeldBack {
    /// None.
    Nothing,
    /// c2: U+0080 to U+00BF.
    Latin,
    /// d8: U+0600 to U+063F.
    Arabic,
    /// e2: U+2000 to U+2FFF.
    General,
    /// e2 80: U+2000 to U+203F.
    Punctuation,
    /// e2 81: U+2040 to U+207F.
    Isolates,
    /// ef: U+F000 to U+FFFF.
    High,
    /// ef bb: U+FEC0 to U+FEFF.
    Forms,
}

impl HeldBack {
    /// The bytes.
    pub(crate) fn bytes(self) -> &'static [u8]
        ensures { result.now ≡ held_bytes self }
    {
        match self {
            HeldBack::Nothing => b"",
            HeldBack::Latin => &[0xc2],
            HeldBack::Arabic => &[0xd8],
            HeldBack::General => &[0xe2],
            HeldBack::Punctuation => &[0xe2, 0x80],
            HeldBack::Isolates => &[0xe2, 0x81],
            HeldBack::High => &[0xef],
            HeldBack::Forms => &[0xef, 0xbb],
        }
    }

    /// Whether the bytes and this one are a character that is escaped.
    pub(crate) fn is_control(self, byte: u8) -> bool
        ensures { result ≡ is_control self byte }
    {
        match self {
            HeldBack::Nothing => byte == 0x7f,
            HeldBack::Latin => 0x80 <= byte && byte <= 0x9f,
            HeldBack::Arabic => byte == 0x9c,
            HeldBack::General => false,
            HeldBack::Punctuation => (0x8b <= byte && byte <= 0x8f)
                || (0xa8 <= byte && byte <= 0xae),
            HeldBack::Isolates => 0xa6 <= byte && byte <= 0xa9,
            HeldBack::High => false,
            HeldBack::Forms => byte == 0xbf,
        }
    }

    /// The character that the bytes and this one are, where it is one that is escaped.
    pub(crate) fn code(self, byte: u8) -> u16
        ensures { result ≡ code self byte }
    {
        match self {
            HeldBack::Nothing => byte as u16,
            HeldBack::Latin => byte as u16,
            HeldBack::Arabic => 0x600 + (byte as u16).saturating_sub(0x80),
            HeldBack::General => 0,
            HeldBack::Punctuation => 0x2000 + (byte as u16).saturating_sub(0x80),
            HeldBack::Isolates => 0x2040 + (byte as u16).saturating_sub(0x80),
            HeldBack::High => 0,
            HeldBack::Forms => 0xfec0 + (byte as u16).saturating_sub(0x80),
        }
    }

    /// What is held back behind this byte.
    pub(crate) fn after(self, byte: u8) -> HeldBack
        ensures { result ≡ after self byte }
    {
        if self.is_control(byte) {
            return HeldBack::Nothing;
        }
        self.next(byte)
    }

    /// What is held back behind this byte where no character ends with it that is escaped.
    pub(crate) fn next(self, byte: u8) -> HeldBack
        ensures { result ≡ next self byte }
    {
        match self {
            HeldBack::Nothing => HeldBack::begun(byte),
            HeldBack::General if byte == 0x80 => HeldBack::Punctuation,
            HeldBack::General if byte == 0x81 => HeldBack::Isolates,
            HeldBack::High if byte == 0xbb => HeldBack::Forms,
            _ => HeldBack::Nothing,
        }
    }

    // What is held back of a character that begins with this byte.
    fn begun(byte: u8) -> HeldBack
        ensures { result ≡ begun byte }
    {
        match byte {
            0xc2 => HeldBack::Latin,
            0xd8 => HeldBack::Arabic,
            0xe2 => HeldBack::General,
            0xef => HeldBack::High,
            _ => HeldBack::Nothing,
        }
    }

    /// Whether no byte is held back.
    pub(crate) fn is_nothing(self) -> bool
        ensures { result ≡ is_nothing self }
    {
        match self {
            HeldBack::Nothing => true,
            _ => false,
        }
    }
}
