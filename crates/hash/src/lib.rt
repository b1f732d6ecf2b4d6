// The hash of a key: "FNV-1a, 32 bits, from its authors' public description". It takes the place of
// `farmhash::hash32` of the original. Paper's `hash_of` is the rule, and these functions are proved
// equal to it.
#![tactic(auto)]

ghost use Rattle.std.specs.Prelude.{◌≡◌};
ghost use Rattle.paper.specs.Hash.{fnv_step, hash_of};

// "for each byte, exclusive-or, then times 16777619": "the product wraps at 32 bits".
#[tactic(auto, unfolding(paper::specs::Hash::fnv_step))]
pub fn fnv_step(h: u32, b: u8) -> u32
    ensures { result ≡ fnv_step h b }
{
    (h ^ u32::from(b)).wrapping_mul(16777619)
}

// The hash of a key of any length, the empty one too: "start 2166136261", then a step for each byte.
pub fn hash32(key: &[u8]) -> u32
    ensures { result ≡ hash_of key.now }
{
    key.iter().fold(2166136261, |h, b| fnv_step(h, *b))
}
