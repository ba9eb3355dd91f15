//! What clap has found of flags and options.
ghost use Rattle.std.specs.Prelude.{◌≡◌};
ghost use Rattle.clap.specs.Words.{found_of, rows_of};
ghost use Rattle.calvin_options.specs.Options.{has_flag, number_of};

use clap::ArgMatches;

/// Whether a flag was found. Its value is read as text, of which clap's clauses say exactly what it is.
pub fn has_flag(found: &ArgMatches<'_>, name: &str) -> bool
    ensures { result ≡ has_flag name.now (rows_of (found_of found.now)) }
{
    match found.get_str(name) {
        Some(value) => value == "true",
        None => false,
    }
}

/// The number that was found for an option: none where none was given and there is no default.
pub fn number_of(found: &ArgMatches<'_>, name: &str) -> Option<u64>
    ensures { result ≡ number_of name.now (rows_of (found_of found.now)) }
{
    found.get_str(name)?.parse::<u64>().ok()
}
