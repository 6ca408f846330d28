//! Laws of the images of a rule set. Each function runs to no effect: what it says is its contract.

ghost use Rattle.desk_rewrite.specs.Laws.{FormsStay, ImagesStay};

/// Under each rule set the image of a text in a role has each form that the text has and that goes with the role: class
/// names, arrays and descriptors (JVMS 4.2.1, 4.3) stay what they are, and modified UTF-8 (JVMS 4.4.7) stays that.
pub fn forms_stay()
    ensures { FormsStay }
{}

/// Under each rule set the image of a text in a role is its own image.
pub fn images_stay()
    ensures { ImagesStay }
{}
