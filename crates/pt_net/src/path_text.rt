// How texts of a document are printed in a path.
ghost use Rattle.std.specs.Prelude.{◌≡◌};
ghost use Rattle.pt_net.specs.Table as table;

use pt_document::is_name;

/// Whether a text is names joined by dots.
fn is_dotted(text: &str) -> bool
    ensures { result ≡ table.is_dotted text.now }
{
    text.split('.').all(|name| is_name(name))
}

/// How a text of the document is printed in a path.
pub fn shown(text: &str) -> &str
    ensures { result.now ≡ table.shown text.now }
{
    if is_dotted(text) { text } else { "?" }
}
