// Two scenes are the same where all of their parts are.
use sg_base::MediaId;
use sg_playing::{SCENE_ROOM, Scene};

// A switch number, and the regions with their media.
const SCENES: [(u32, &[(u32, u32)]); 6] = [
    (1, &[]),
    (2, &[]),
    (1, &[(1, 7)]),
    (1, &[(1, 8)]),
    (1, &[(2, 7)]),
    (1, &[(1, 7), (1, 7)]),
];

fn scene(number: u32, entries: &[(u32, u32)]) -> Scene {
    let mut scene = Scene::new(number);
    for (region, media) in entries {
        if scene.len() >= SCENE_ROOM {
            return scene;
        }
        scene.push(*region, MediaId(*media));
    }
    scene
}

#[test]
fn a_scene_is_the_same_as_itself_alone(rt: HostRuntime) {
    for (i, one) in SCENES.iter().enumerate() {
        for (j, other) in SCENES.iter().enumerate() {
            let same = scene(one.0, one.1).is_same(&scene(other.0, other.1));
            assert_eq!(rt; same, i == j, "{i} and {j}");
        }
    }
}
