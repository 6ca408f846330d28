//! Laws of headers and their values. Each function runs to no effect: what it says is its contract.

ghost use Rattle.desk_manifest_laws.specs.Laws.{HeadersAreReadBack, ListingsStay};

/// A header with a name of at most 70 bytes, folded at 72 bytes (JAR File Specification, "Line length"), says its name and its
/// value when it is read. Only where no character of UTF-8 begins at the value's front can the value be read with one more space
/// before it.
pub fn headers_are_read_back()
    ensures { HeadersAreReadBack }
{}

/// Under a rule set the image of a value that lists packages or bundles is its own image (OSGi Core 3.2.4).
pub fn listings_stay()
    ensures { ListingsStay }
{}
