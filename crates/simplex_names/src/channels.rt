//! The words for channels.
ghost use Rattle.std.specs.Prelude.{◌≡◌};
ghost use Rattle.simplex_names.specs.Names as said;

use simplex_types::Channel;

/// The word for a channel.
pub fn channel_word(channel: Channel) -> &'static str
    ensures { result.now ≡ said.channel_word channel }
{
    match channel {
        Channel::Vote => "vote",
        Channel::Certificate => "certificate",
        Channel::Resolver => "resolver",
    }
}

/// The channel that a word names, if there is one.
pub fn channel_of(word: &str) -> Option<Channel>
    ensures { result ≡ said.channel_of word.now }
{
    match word {
        "vote" => Some(Channel::Vote),
        "certificate" => Some(Channel::Certificate),
        "resolver" => Some(Channel::Resolver),
        _ => None,
    }
}
