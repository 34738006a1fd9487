// The base points that FIPS 186 publishes for B-163, K-163, K-233, B-283, K-409 and K-571, after the coefficients a and b of each curve,
// tried under the drawn tables of their widths by the proved calls. One has all coordinates 1.
#![tactic(auto)]

ghost use Rattle.std.specs.Prelude.{◌≤◌};
ghost use Rattle.gf2.specs.Operands.{max_width};

use std::io;

// A curve's name, the width of its field and the type of that width's table, its coefficients and its base point in their digits.
struct Curve {
    name: &'static str,
    width: usize,
    kind: usize,
    a: &'static [u8],
    b: &'static [u8],
    x: &'static [u8],
    y: &'static [u8],
}

const CURVES: [Curve; 6] = [
    Curve {
        name: "B-163",
        width: 163,
        kind: 4,
        a: b"7ffffffffffffffffffffffffffffffffffffffff",
        b: b"6645f3cacf1638e139c6cd13ef61734fbc9e3d9fb",
        x: b"0311103c17167564ace77ccb09c681f886ba54ee8",
        y: b"333ac13c6447f2e67613bf7009daf98c87bb50c7f",
    },
    Curve {
        name: "K-163",
        width: 163,
        kind: 4,
        a: b"7ffffffffffffffffffffffffffffffffffffffff",
        b: b"7ffffffffffffffffffffffffffffffffffffffff",
        x: b"05679b353caa46825fea2d3713ba450da0c2a4541",
        y: b"235b7c6710050689906bac3d9dec76a835591edb2",
    },
    Curve {
        name: "K-233",
        width: 233,
        kind: 2,
        a: b"0",
        b: b"1ffffffffffffffffffffffffffffffffffffffffffffffffffffffffff",
        x: b"0fde76d9dcd26e643ac26f1aa901aa129784b71fc0722b2d05614d650b3",
        y: b"0643e317633155c9e0447ba8020a3c43177450ee036d633501434cac978",
    },
    Curve {
        name: "B-283",
        width: 283,
        kind: 6,
        a: b"7ffffffffffffffffffffffffffffffffffffffffffffffffffffffffffffffffffffff",
        b: b"157261b894739fb5a13503f55f0b3f10c5601166633102201138cc180c0206bdafbc951",
        x: b"749468e464ee468634b21f7f61cb700701817e6bc36a2364cb8906e940948eaa463c35d",
        y: b"62968bd3b489ac5c9b859da68475c315bafcdc4ccd0dc905b70f62446f49c052f49c08c",
    },
    Curve {
        name: "K-409",
        width: 409,
        kind: 4,
        a: b"0",
        b: b"1ffffffffffffffffffffffffffffffffffffffffffffffffffffffffffffffffffffffffffffffffffffffffffffffffffffff",
        x: b"1b559c7cba2422e3affe13343e808b55e012d726ca0b7e6a63aeafbc1e3a98e10ca0fcf98350c3b7f89a9754a8e1dc0713cec4a",
        y: b"16d8c42052f07e7713e7490eff318ba1abd6fef8a5433c894b24f5c817aeb79852496fbee803a47bc8a203878ebf1c499afd7d6",
    },
    Curve {
        name: "K-571",
        width: 571,
        kind: 10,
        a: b"0",
        b: b"7ffffffffffffffffffffffffffffffffffffffffffffffffffffffffffffffffffffffffffffffffffffffffffffffffffffffffffffffffffffffffffffffffffffffffffffff",
        x: b"04bb2dba418d0db107adae003427e5d7cc139acb465e5934f0bea2ab2f3622bc29b3d5b9aa7a1fdfd5d8be66057c1008e71e484bcd98f22bf8476423767367429ef2ec5bc3ebcf7",
        y: b"44cbb57de20788d2c952d7b56cf39bd3e89b18984bd124e751ceff4369dd8dac6a59e6e745df44d8220ce22aa2c852cfcbbef49ebaa98bd2483e33180e04286feaa253050caff60",
    },
];

// A base point under the drawn table of its width: whether it lies on the curve, and whether it does with one bit of y changed.
fn point(rt: &impl Print, curve: &Curve) -> io::Result<()>
    requires { curve.now.width ≤ max_width }
    ensures { Unit {0} }
{
    let Curve {
        name,
        width,
        kind,
        a,
        b,
        x,
        y,
    } = *curve;
    let mut buffer = [0u8; limbs::MAX_WIDTH * limbs::BYTES];
    let table = &mut buffer[..width * limbs::bytes_for(width)];
    let drawn = gaussian::draw(width, table).unwrap_or(0);
    let on = u8::from(curves::lies(width, table, a, b, x, y, b"0"));
    let changed = u8::from(curves::lies(width, table, a, b, x, y, b"1"));
    println!(rt;
        "{name}, type {kind}: drawn type {drawn}, on the curve {on}, with one bit changed {changed}"
    )
}

fn main(rt: HostRuntime) -> io::Result<()> {
    for curve in &CURVES {
        point(&rt, curve)?;
    }
    Ok(())
}
