//! The commands by their names.

/// A command of a case.
#[derive(Clone, Copy)]
pub enum Command {
    Rules,
    Place,
    Goes,
    Service,
    Manifest,
    Text,
    Longest,
    Twins,
    Body,
    Rewrite,
    RewriteAs,
    RewriteServlet,
    RewriteServletWith255,
    Class,
    Classes,
    Scan,
    Graph,
    Treated,
    File,
}

/// The name of each command.
const COMMANDS: &[(&[u8], Command)] = &[
    (b"rules", Command::Rules),
    (b"place", Command::Place),
    (b"goes", Command::Goes),
    (b"service", Command::Service),
    (b"manifest", Command::Manifest),
    (b"text", Command::Text),
    (b"longest", Command::Longest),
    (b"twins", Command::Twins),
    (b"body", Command::Body),
    (b"rewrite", Command::Rewrite),
    (b"rewrite-as", Command::RewriteAs),
    (b"rewrite-servlet", Command::RewriteServlet),
    (b"rewrite-servlet-with-255", Command::RewriteServletWith255),
    (b"class", Command::Class),
    (b"classes", Command::Classes),
    (b"scan", Command::Scan),
    (b"graph", Command::Graph),
    (b"treated", Command::Treated),
    (b"file", Command::File),
];

/// The command of a name.
pub fn command_of(name: &[u8]) -> Option<Command> {
    for (known, command) in COMMANDS.iter() {
        if *known == name {
            return Some(*command);
        }
    }
    None
}
