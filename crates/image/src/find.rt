// The image at the end of a caller's bytes, as `image_bytes` finds it. What a layer does is had from its top crate: so this one hands on both.
ghost use Rattle.std.specs.Prelude.{◌≡◌};
ghost use Rattle.image_bytes.specs.Find as spec;
ghost use Rattle.image_bytes.specs.Find.{BodyFound};

// The body that the trailer points back to, as a part of the caller's bytes; an empty part, at their end, if check 10 refuses them.
pub fn find(bytes: &[u8]) -> &[u8]
    ensures { BodyFound bytes.now bytes.entry.ref_ptr result.now result.ref_ptr }
{
    image_bytes::find::find(bytes)
}

// Where that body starts, or the length of the bytes if check 10 refuses them.
pub fn body_start(bytes: &[u8]) -> usize
    ensures { result ≡ spec.body_start bytes.now }
{
    image_bytes::find::body_start(bytes)
}
