//! Types of Go's library that encode themselves.

ghost use Rattle.std.specs.Prelude.{◌≡◌};
ghost use Rattle.gob_types.specs.Table.{shape_of};
ghost use Rattle.gob_source.specs.Adds.{Adds};
ghost use Rattle.gob_source.specs.Library.{is_of_package, is_package, kind_package, library_name, package_name};
ghost use Rattle.gob_source.specs.Library.{package_of, package_path, shape_package};
ghost use Rattle.gob_source.specs.Source.{import_text, imports, imports_any, imports_text, is_of};

use crate::names::is_word;
use crate::text::push_text;
use gob_types::{Kind, Marshal, Shape, Shapes, TypeId};
use std::alloc::AllocError;

/// A package of Go's library that has types which encode themselves.
#[derive(Clone, Copy)]
pub(crate) enum Package {
    /// math/big
    Big,
    /// net/netip
    Netip,
    /// net/url
    Url,
    /// time
    Time,
}

/// The package whose type has the name and encodes itself in this way, where there is one.
pub(crate) fn package_of(name: &[u8], marshal: Marshal) -> Option<Package>
    ensures { result ≡ package_of name.now marshal }
{
    match marshal {
        Marshal::Gob if is_word(name, &[b"Time"]) => Some(Package::Time),
        Marshal::Gob if is_word(name, &[b"Int", b"Float", b"Rat"]) => Some(Package::Big),
        Marshal::Binary if is_word(name, &[b"URL"]) => Some(Package::Url),
        Marshal::Binary if is_word(name, &[b"Addr", b"AddrPort", b"Prefix"]) => Some(
            Package::Netip,
        ),
        _ => None,
    }
}

/// The package of the type, where it is one of Go's library.
pub(crate) fn package_of_shape(shape: &Shape) -> Option<Package>
    ensures { result ≡ shape_package shape.now }
{
    match shape.kind {
        Kind::Opaque(marshal) => package_of(shape.name.as_bytes(), marshal),
        _ => None,
    }
}

/// Appends the type of this name as Go source names it.
pub(crate) fn push_library_name(
    owner: Package,
    name: &[u8],
    out: &mut Vec<u8>,
) -> Result<(), AllocError>
    ensures { Adds result out.old.items out.new.items (library_name owner name.now) }
{
    push_text(package_name(owner), out)?;
    push_text(b".", out)?;
    push_text(name, out)
}

fn package_name(owner: Package) -> &'static [u8]
    ensures { result.now ≡ package_name owner }
{
    match owner {
        Package::Big => b"big",
        Package::Netip => b"netip",
        Package::Url => b"url",
        Package::Time => b"time",
    }
}

fn package_path(owner: Package) -> &'static [u8]
    ensures { result.now ≡ package_path owner }
{
    match owner {
        Package::Big => b"math/big",
        Package::Netip => b"net/netip",
        Package::Url => b"net/url",
        Package::Time => b"time",
    }
}

/// Appends the import of the packages of these types, where they are of any.
pub(crate) fn push_imports<S: Shapes>(
    shapes: &S,
    ids: &[TypeId],
    out: &mut Vec<u8>,
) -> Result<(), AllocError>
    ensures { Adds result out.old.items out.new.items (imports_text (S.table shapes.now) ids.now) }
{
    if !imports_any(shapes, ids) {
        return Ok(());
    }
    push_text(b"\nimport (\n", out)?;
    push_import(shapes, ids, Package::Big, out)?;
    push_import(shapes, ids, Package::Netip, out)?;
    push_import(shapes, ids, Package::Url, out)?;
    push_import(shapes, ids, Package::Time, out)?;
    push_text(b")\n", out)
}

/// Appends the line of a package, where one of the types is its.
pub(crate) fn push_import<S: Shapes>(
    shapes: &S,
    ids: &[TypeId],
    owner: Package,
    out: &mut Vec<u8>,
) -> Result<(), AllocError>
    ensures { Adds result out.old.items out.new.items (import_text (S.table shapes.now) ids.now owner) }
{
    if !imports(shapes, ids, owner) {
        return Ok(());
    }
    push_text(b"\t\"", out)?;
    push_text(package_path(owner), out)?;
    push_text(b"\"\n", out)
}

// Whether one of the types is of any of the packages.
fn imports_any<S: Shapes>(shapes: &S, ids: &[TypeId]) -> bool
    ensures { result ≡ imports_any (S.table shapes.now) ids.now }
{
    imports(shapes, ids, Package::Big)
        || imports(shapes, ids, Package::Netip)
        || imports(shapes, ids, Package::Url)
        || imports(shapes, ids, Package::Time)
}

// Whether one of the types is of the package.
fn imports<S: Shapes>(shapes: &S, ids: &[TypeId], owner: Package) -> bool
    ensures { result ≡ imports (S.table shapes.now) ids.now owner }
{
    for id in ids {
        if is_of(shapes, *id, owner) {
            return true;
        }
    }
    false
}

fn is_of<S: Shapes>(shapes: &S, id: TypeId, owner: Package) -> bool
    ensures { result ≡ is_of (shape_of (S.table shapes.now) id) owner }
{
    let Some(shape) = shapes.shape_of(id) else {
        return false;
    };
    is_of_package(owner, package_of_shape(shape))
}

/// Whether there is a package, and it is this one.
pub(crate) fn is_of_package(owner: Package, other: Option<Package>) -> bool
    ensures { result ≡ is_of_package owner other }
{
    match other {
        Some(other) => is_package(owner, other),
        None => false,
    }
}

fn is_package(owner: Package, other: Package) -> bool
    ensures { result ≡ is_package owner other }
{
    matches!(
        (owner, other),
        (Package::Big, Package::Big)
            | (Package::Netip, Package::Netip)
            | (Package::Url, Package::Url)
            | (Package::Time, Package::Time)
    )
}
