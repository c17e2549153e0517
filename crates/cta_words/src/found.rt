// The form of what `clap` found.
ghost use Rattle.std.specs.Prelude.{◌≡◌, option_map};
ghost use Rattle.clap.specs.Words.{first_of, found_of, rows_of, subcommand_rows_of};
ghost use Rattle.cta_words.specs.Words.{form_words};
ghost use Rattle.cta_words.specs.Found.{durable_words, mill_words, replay_words, serve_words, words_found};

use crate::form::Form;
use clap::ArgMatches;

// The value of the place, where it has one.
fn value_of<'a>(found: &ArgMatches<'a>, name: &str) -> Option<&'a str>
    ensures { option_map (λ s. s.now) result ≡ first_of name.now (rows_of (found_of found.now)) }
{
    found.get_str(name)
}

// `replay` with the value of its place.
fn replay_form<'a>(found: &ArgMatches<'a>) -> Option<Form<'a>>
    ensures { option_map form_words result ≡ replay_words (rows_of (found_of found.now)) }
{
    let site = value_of(found, "SITE")?;
    Some(Form::Replay { site })
}

// `serve` with the values of its places.
fn serve_form<'a>(found: &ArgMatches<'a>) -> Option<Form<'a>>
    ensures { option_map form_words result ≡ serve_words (rows_of (found_of found.now)) }
{
    let site = value_of(found, "SITE")?;
    let addr = value_of(found, "ADDR")?;
    let media = value_of(found, "MEDIA")?;
    let workers = value_of(found, "WORKERS")?;
    Some(Form::Serve {
        site,
        addr,
        media,
        workers,
    })
}

// `mill` with the values of its places.
fn mill_form<'a>(found: &ArgMatches<'a>) -> Option<Form<'a>>
    ensures { option_map form_words result ≡ mill_words (rows_of (found_of found.now)) }
{
    let seed = value_of(found, "SEED")?;
    let files = value_of(found, "FILES")?;
    let workers = value_of(found, "WORKERS")?;
    Some(Form::Mill {
        seed,
        files,
        workers,
    })
}

// `durable` with the values of its places.
fn durable_form<'a>(found: &ArgMatches<'a>) -> Option<Form<'a>>
    ensures { option_map form_words result ≡ durable_words (rows_of (found_of found.now)) }
{
    let site = value_of(found, "SITE")?;
    let addr = value_of(found, "ADDR")?;
    let media = value_of(found, "MEDIA")?;
    let workers = value_of(found, "WORKERS")?;
    let journal = value_of(found, "JOURNAL")?;
    Some(Form::Durable {
        site,
        addr,
        media,
        workers,
        journal,
    })
}

// The form of the subcommand that was found and of the values of its places, where there is one.
pub(crate) fn form_of<'a>(matches: &ArgMatches<'a>) -> Option<Form<'a>>
    ensures { option_map form_words result ≡ words_found (subcommand_rows_of matches.now) }
{
    let (name, found) = matches.subcommand()?;
    match name {
        "replay" => replay_form(found),
        "serve" => serve_form(found),
        "mill" => mill_form(found),
        "durable" => durable_form(found),
        _ => None,
    }
}
