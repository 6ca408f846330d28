//! Laws of texts and classes under rules and their inverse. Each function runs to no effect: what it says is its contract.

ghost use Rattle.desk_invert_laws.specs.Classes.{ClassesBack};
ghost use Rattle.desk_invert_laws.specs.Texts.{TextsBack};

/// For the rules that have an inverse: it takes back the image of each text that, by its role, names no package in a reach.
pub fn texts_back()
    ensures { TextsBack }
{}

/// For the rules that have an inverse: let a class be well-formed, let no package that its uses name by their role lie in a
/// reach, and let neither its rewriting by the rules nor that by the inverse be refused. Then the resolved tree of the class that
/// was rewritten by both is that of the class.
pub fn classes_back()
    ensures { ClassesBack }
{}
