// The keys of each kind of table of a site file.
ghost use Rattle.std.specs.Prelude.{◌≡◌};
ghost use Rattle.std.specs.List.{list_any};
ghost use Rattle.std.specs.Str.{bytes_eq};

/// A kind of table.
#[derive(Clone, Copy)]
pub enum Level {
    Version1,
    Version2,
    Limits,
    Host,
    Script,
    WebSocketScript,
    Documents,
}

fn is_one_of(key: &str, known: &[&str]) -> bool
    ensures { result ≡ list_any (λ word. bytes_eq key.now word.now) known.now }
{
    known.iter().any(|word| key == *word)
}

impl Level {
    ghost use Rattle.site_file.specs.Levels.{known_at};

    /// Whether tables of this kind have the key.
    pub fn knows(self, key: &str) -> bool
        ensures { result ≡ list_any (bytes_eq key.now) (known_at self) }
    {
        match self {
            Level::Version1 => is_one_of(
                key,
                &[
                    "version", "name", "listen", "port", "root", "limits", "script",
                ],
            ),
            Level::Version2 => is_one_of(key, &["version", "listen", "port", "limits", "host"]),
            Level::Limits => is_one_of(
                key,
                &[
                    "head",
                    "target",
                    "body",
                    "output",
                    "run_ticks",
                    "idle_ticks",
                    "linger_ticks",
                    "redirects",
                    "connections",
                    "children",
                    "ws_text",
                ],
            ),
            Level::Host => is_one_of(
                key,
                &["name", "aliases", "any", "root", "script", "documents"],
            ),
            Level::Script => is_one_of(key, &["path", "program", "kind"]),
            Level::WebSocketScript => is_one_of(key, &["path", "program", "kind", "origins"]),
            Level::Documents => is_one_of(key, &["path", "root", "types"]),
        }
    }
}
