//! The answers to the challenge of RFC 7616, 3.9.1.
use fax_digest::{Algorithm, Credentials, response};
use std::alloc::Global;

const MUFASA: Credentials<'static> = Credentials {
    user: b"Mufasa",
    realm: b"http-auth@example.org",
    password: b"Circle of Life",
    method: b"GET",
    uri: b"/dir/index.html",
    nonce: b"7ypf/xlj9XXwfDPEoM4URrv/xwf94BcCAzFZH4GiTo0v",
    count: b"00000001",
    client_nonce: b"f2/wE4q74E6zIJEtWaHKaf5wv/H5QzzpXusqGemxURZJ",
};

/// Whether the answer is this.
fn is_response(alloc: Global, algorithm: Algorithm, wanted: &str) -> bool {
    match response(alloc, algorithm, &MUFASA) {
        Ok(text) => text.as_str() == wanted,
        Err(_) => false,
    }
}

#[test]
fn answers_are_those_of_the_standard(rt: HostRuntime) {
    let md5 = "8ca523f5e9506fed4657c9700eebdbec";
    let sha256 = "753927fa0e85d155564e2e272a28d1802ca10daf4496794697cf8db5856cb6c1";
    assert!(rt;
        is_response(rt.alloc(), Algorithm::Md5, md5)
            && is_response(rt.alloc(), Algorithm::Sha256, sha256)
    );
}
