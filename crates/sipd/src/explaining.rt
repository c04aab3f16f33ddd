//! `explain`: what a status, or the kind of a refusal, means, and how to mend it.

mod config;
mod dar;
mod script;
mod status;

/// What a number means of this topic, `config`, `dar`, `script` or `status`. None of another topic,
/// and of a number that the topic hasn't.
pub fn explanation(topic: &str, number: &str) -> Option<&'static str> {
    match topic {
        "config" => text_of(&config::TEXTS, number),
        "dar" => text_of(&dar::TEXTS, number),
        "script" => text_of(&script::TEXTS, number),
        "status" => text_of(&status::TEXTS, number),
        _ => None,
    }
}

fn text_of(texts: &[(&'static str, &'static str)], number: &str) -> Option<&'static str> {
    for (name, text) in texts {
        if *name == number {
            return Some(*text);
        }
    }
    None
}
