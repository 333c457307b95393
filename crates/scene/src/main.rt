// The scene program: reads standard input, at most one byte more than a scene may have, and writes what it comes to. A failed read is no scene.
#![tactic(auto)]

fn main(rt: HostRuntime) {
    let mut bytes = [0u8; 65537];
    match input::read(&mut rt.stdin(), &mut bytes) {
        Ok(n) => {
            scene_print::print(&mut rt.stdout(), &mut rt.stderr(), &bytes[..n]);
        }
        Err(_) => output::complain(
            &mut rt.stderr(),
            b"scene: standard input could not be read\n",
        ),
    }
}
