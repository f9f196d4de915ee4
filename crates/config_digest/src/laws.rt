//! Laws of the digest.

ghost use Rattle.config_digest.specs.Laws.{DigestTells};

/// Where the digests of two texts differ unless the texts are one, a digest tells the keys and values of
/// the pair and of both storages, as they are written.
pub fn digest_tells()
    ensures { DigestTells }
{}
