//! A law of the definition.
ghost use Rattle.std.specs.Prelude.{ℕ, List, Option};
ghost use Rattle.band_store.specs.Format.{Save};
ghost use Rattle.band_run.specs.declared.reply.Reply.{Reply as OneReply};
ghost use Rattle.band_run.specs.Bands.{IsFirst};

/// Each list of bytes contains saves, is no store, or is damaged at some place. So a run can begin on every disk that starts synced.
pub fn every_disk_has_a_start()
    ensures { (bytes : List ℕ) → ((refusal : Option OneReply) × (saves : List Save) × IsFirst bytes refusal saves) }
{}
