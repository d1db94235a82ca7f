//! What a script's run tells of the texts that it shows.
ghost use Rattle.std.specs.Prelude.{ℕ, List};
ghost use Rattle.form_replay.specs.Headline.{Headline};
ghost use Rattle.form_replay.specs.Samples.{ShowsOfScript, TextOfScript};

/// Each `show` line writes the text of its peer at that point, and two such lines whose peers have the same requests
/// and the same log write the same bytes.
pub fn headline()
    ensures { (input : List ℕ) → Headline input }
{
    peer_tables::laws::same_sets();
    replay_net::laws::sound_worlds();
    script_text::laws::formed();
    script_text::laws::taken();
}

/// What the definitions compute on a small script: it has one `show` line, behind the answer to its edit, and the text
/// of that line's peer is the letter that was written.
pub fn sample_shows()
    ensures shows { ShowsOfScript }
    ensures texts { TextOfScript }
{}
