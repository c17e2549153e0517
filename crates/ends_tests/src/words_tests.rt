use cta_words::{Form, WordsError, read_words};
use std::alloc::{AllocError, Global};

// Words of none of the forms.
const NO_FORMS: [&str; 19] = [
    "",
    "replay",
    "replay a b",
    "replay ",
    "replay -h",
    "replay --",
    "replay help x",
    "replay a --x=v",
    "--help",
    "help",
    "help replay",
    "cta replay a",
    "serve a b c",
    "serve a b c d e",
    "mill 1 2",
    "mill 1 2 3 4",
    "durable a b c d",
    "durable a b c d e f",
    "Replay a",
];

// A line's words, which single blanks part.
fn words_of(alloc: Global, line: &str) -> Result<Vec<String>, AllocError> {
    let mut words = Vec::new(alloc);
    for word in line.split(' ') {
        words.push(String::from_str(alloc, word)?)?;
    }
    Ok(words)
}

// Whether a line's words are read so.
fn is_read_as(alloc: Global, line: &str, want: Result<Form, WordsError>) -> bool {
    match words_of(alloc, line) {
        Ok(words) => read_words(alloc, &words) == want,
        Err(_) => false,
    }
}

#[test]
fn reads_each_form(rt: HostRuntime) {
    let alloc = rt.alloc();
    let site = "site.toml";
    let (addr, media, workers, journal) = ("127.0.0.1:8443", "media", "4", "journal");
    let serve = Form::Serve {
        site,
        addr,
        media,
        workers,
    };
    let (seed, files) = ("7", "1000");
    let mill = Form::Mill {
        seed,
        files,
        workers,
    };
    let durable = Form::Durable {
        site,
        addr,
        media,
        workers,
        journal,
    };
    let help = Form::Replay { site: "help" };
    let is_replay = is_read_as(alloc, "replay site.toml", Ok(Form::Replay { site }));
    let is_help = is_read_as(alloc, "replay help", Ok(help));
    let is_serve = is_read_as(alloc, "serve site.toml 127.0.0.1:8443 media 4", Ok(serve));
    let is_mill = is_read_as(alloc, "mill 7 1000 4", Ok(mill));
    let line = "durable site.toml 127.0.0.1:8443 media 4 journal";
    let is_durable = is_read_as(alloc, line, Ok(durable));
    assert_eq!(rt;
        [is_replay, is_help, is_serve, is_mill, is_durable],
        [true; 5]
    );
}

// The first of the words of no form that are read otherwise.
fn first_read(alloc: Global) -> Option<&'static str> {
    for line in NO_FORMS {
        if !is_read_as(alloc, line, Err(WordsError::Usage)) {
            return Some(line);
        }
    }
    None
}

#[test]
fn refuses_other_words(rt: HostRuntime) {
    let alloc = rt.alloc();
    assert_eq!(rt; first_read(alloc), None);
    let none: [String; 0] = [];
    assert_eq!(rt; read_words(alloc, &none), Err(WordsError::Usage));
}
