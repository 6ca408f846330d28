//! Kinds of headers, by their names.

ghost use Rattle.std.specs.Prelude.{◌≡◌};
ghost use Rattle.desk_manifest.specs.Headers.{is_named, names_class, names_imports, names_bundles, main_kind, further_kind, kind_of_header};

use desk_listings::Listing;

/// What the value of a header says.
#[derive(Clone, Copy)]
pub(crate) enum HeaderKind {
    /// The name of a class, with dots.
    ClassName,
    /// A list of clauses.
    Listed(Listing),
    /// The version of the bundle.
    BundleVersion,
    /// The path of a file or a folder.
    Path,
    /// Anything else, which stays.
    Other,
}

/// Whether two names of headers are equal, without regard to ASCII case.
pub(crate) fn is_named(name: &[u8], header: &[u8]) -> bool
    ensures { result ≡ is_named name.now header.now }
{
    name.eq_ignore_ascii_case(header)
}

/// Whether a header of the main section names a class.
fn names_class(name: &[u8]) -> bool
    ensures { result ≡ names_class name.now }
{
    is_named(name, b"Main-Class")
        || is_named(name, b"Premain-Class")
        || is_named(name, b"Agent-Class")
        || is_named(name, b"Launcher-Agent-Class")
        || is_named(name, b"Bundle-Activator")
}

/// Whether a header of the main section lists imported packages.
fn names_imports(name: &[u8]) -> bool
    ensures { result ≡ names_imports name.now }
{
    is_named(name, b"Import-Package") || is_named(name, b"DynamicImport-Package")
}

/// Whether a header of the main section lists other bundles.
fn names_bundles(name: &[u8]) -> bool
    ensures { result ≡ names_bundles name.now }
{
    is_named(name, b"Require-Bundle") || is_named(name, b"Fragment-Host")
}

/// The kind of a header of the main section.
fn main_kind(name: &[u8]) -> HeaderKind
    ensures { result ≡ main_kind name.now }
{
    if names_class(name) {
        HeaderKind::ClassName
    } else if names_imports(name) {
        HeaderKind::Listed(Listing::Imports)
    } else if is_named(name, b"Export-Package") {
        HeaderKind::Listed(Listing::Exports)
    } else if is_named(name, b"Bundle-SymbolicName") {
        HeaderKind::Listed(Listing::Identity)
    } else if names_bundles(name) {
        HeaderKind::Listed(Listing::Bundles)
    } else if is_named(name, b"Bundle-Version") {
        HeaderKind::BundleVersion
    } else {
        HeaderKind::Other
    }
}

/// The kind of a header of the main section, or of another one.
pub(crate) fn header_kind(main: bool, name: &[u8]) -> HeaderKind
    ensures { result ≡ kind_of_header main name.now }
{
    if main {
        main_kind(name)
    } else if is_named(name, b"Name") {
        HeaderKind::Path
    } else {
        HeaderKind::Other
    }
}
