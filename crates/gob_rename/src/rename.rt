//! Fields that have another name in a stream.

ghost use Rattle.std.specs.Prelude.{◌≡◌};
ghost use Rattle.gob_rename.specs.Renaming.{is_told, name_behind};

/// A field of a wanted struct that has another name in a stream.
#[derive(Clone, Copy, Debug, PartialEq, Eq)]
pub struct Rename<'a> {
    /// The name of the wanted structs whose field it is. None: all that have such a field.
    pub of: Option<&'a [u8]>,
    /// The field's name in the stream.
    pub old: &'a [u8],
    /// The field's name in the wanted struct.
    pub new: &'a [u8],
}

impl Rename<'_> {
    /// Whether this tells of the field of this name in the wanted structs of the other name.
    pub(crate) fn tells(&self, struct_name: &[u8], field_name: &[u8]) -> bool
        ensures { result ≡ is_told self.now struct_name.now field_name.now }
    {
        match self.of {
            None => self.new == field_name,
            Some(name) => name == struct_name && self.new == field_name,
        }
    }
}

/// The name behind all of them of a field of the wanted structs of this name.
pub(crate) fn name_behind<'a>(
    renames: &'a [Rename<'a>],
    struct_name: &[u8],
    field_name: &'a [u8],
) -> &'a [u8]
    ensures { result.now ≡ name_behind renames.now struct_name.now field_name.now }
{
    let mut name = field_name;
    for rename in renames {
        if rename.tells(struct_name, name) {
            name = rename.old;
        }
    }
    name
}
